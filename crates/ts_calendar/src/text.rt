// Calendars as texts: `startdate(S), pattstart(S), pattname(N)` or `.., pattern(P)`.
ghost use Rattle.std.specs.Prelude.{◌≡◌, ◌↔◌, ℕ, List, ◌++◌, ◌^◌, ◌<◌, Ok, length, IfOk, OnOk, OnErr};
ghost use Rattle.ts_base.specs.Answer.{Answers};
ghost use Rattle.ts_base.specs.Moment.{stamp_text};
ghost use Rattle.ts_calendar.specs.declared.text.CalendarText.{CalendarText};
ghost use Rattle.ts_text.specs.Place.{RefusesInPlace};
ghost use Rattle.ts_calendar.specs.Front.{calendar_fronts};
ghost use Rattle.ts_calendar.specs.Spelling.{IsCalendarText};
ghost use Rattle.ts_calendar.specs.Calendars.{read_calendar, written_calendar, printed_calendar, printed_part, IsSound};

use crate::read::written_calendar;
use std::alloc::{AllocError, Global};
use ts_base::{Bytes, Name, Refusal, Stamp, Trouble};
use ts_pattern::Pattern;
use ts_text::Misfit;

/// Which intervals of a calendar are on: those of a pattern that has a name, or of one that stands in the text.
#[derive(Drop)]
pub enum PatternPart {
    Named(Name),
    Own(Pattern),
}

/// What the text of a calendar says. It need not be a valid calendar.
#[derive(Drop)]
pub struct CalendarText {
    pub start: Stamp,
    pub patt_start: Stamp,
    pub part: PatternPart,
}

impl CalendarText {
    /// What a text says; a place counts the bytes before what can't stand there.
    pub fn read(alloc: Global, text: &[u8]) -> Result<CalendarText, Trouble>
        requires { length text.now < 2 ^ 32 }
        ensures { Answers (read_calendar text.now) result }
    {
        match written_calendar(alloc, text) {
            Ok(written) => written.into_text(),
            Err(Misfit::At { left }) => {
                let place = text.len().saturating_sub(left) as u32;
                Err(Trouble::Refused(Refusal::BadCalendar { place }))
            }
            Err(Misfit::Memory(error)) => Err(Trouble::Memory(error)),
        }
    }

    /// Puts the text to the end, whole or not at all.
    pub fn print(&self, alloc: Global, out: &mut Bytes) -> Result<(), AllocError>
        ensures ok { OnOk result (out.new ≡ out.old ++ printed_calendar self.now) }
        ensures err { OnErr result (out.new ≡ out.old) }
    {
        let mut text = Bytes::new(alloc);
        text.extend_from_slice(b"startdate(")?;
        print_stamp(self.start, &mut text)?;
        text.extend_from_slice(b"), pattstart(")?;
        print_stamp(self.patt_start, &mut text)?;
        text.extend_from_slice(b"), ")?;
        self.part.print(&mut text)?;
        out.extend_from_slice(text.as_slice())
    }

    /// The same text once more.
    pub fn copy(&self) -> Result<CalendarText, AllocError>
        ensures { IfOk result (λ c. c ≡ self.now) }
    {
        let part = self.part.copy()?;
        Ok(CalendarText {
            start: self.start,
            patt_start: self.patt_start,
            part,
        })
    }
}

impl PatternPart {
    fn print(&self, out: &mut Bytes) -> Result<(), AllocError>
        ensures { OnOk result (out.new ≡ out.old ++ printed_part self.now) }
    {
        match self {
            PatternPart::Named(name) => {
                out.extend_from_slice(b"pattname(")?;
                out.extend_from_slice(name.as_slice())?;
            }
            PatternPart::Own(pattern) => {
                out.extend_from_slice(b"pattern(")?;
                pattern.print(out)?;
            }
        }
        out.push(b')')
    }

    /// The same part once more.
    pub fn copy(&self) -> Result<PatternPart, AllocError>
        ensures { IfOk result (λ p. p ≡ self.now) }
    {
        match self {
            PatternPart::Named(name) => {
                let name = name.copy()?;
                Ok(PatternPart::Named(name))
            }
            PatternPart::Own(pattern) => {
                let pattern = pattern.copy()?;
                Ok(PatternPart::Own(pattern))
            }
        }
    }
}

fn print_stamp(stamp: Stamp, out: &mut Bytes) -> Result<(), AllocError>
    ensures { OnOk result (out.new ≡ out.old ++ stamp_text stamp) }
{
    let mut text = [0u8; 25];
    stamp.write_into(&mut text);
    out.extend_from_slice(&text)
}

/// A text is read as a calendar exactly where it is that calendar's tokens with blanks between them.
pub fn calendar_texts_are_tokens()
    ensures { (text : List ℕ) → (c : CalendarText) → written_calendar text ≡ Ok c ↔ IsCalendarText c text }
{}

/// What is printed of a calendar is read as the same.
pub fn printed_calendars_are_read()
    ensures { (c : CalendarText) → IsSound c → read_calendar (printed_calendar c) ≡ Ok c }
{}

/// Where a text is refused as a calendar, what stands before the place goes on to a calendar's text; with the token
/// that stands at the place none does: whatever comes behind it that leaves it this token, the text is refused at this
/// place. In the brackets of a date the bytes up to the next closing bracket count as one token. Nothing is said of
/// bytes that begin no token.
pub fn calendars_are_refused_in_place()
    ensures { RefusesInPlace calendar_fronts written_calendar }
{}
