// Reading the text of a calendar. What can't stand where it is found is told by how many bytes are left from it on.
ghost use Rattle.std.specs.Prelude.{◌≡◌, ◌^◌, ◌<◌, ◌≤◌, Ok, IfOk, IfErr, [], length};
ghost use Rattle.ts_base.specs.Answer.{Answers};
ghost use Rattle.ts_text.specs.Misfit.{Refuses, RefusesExactly};
ghost use Rattle.ts_text.specs.Phrase.{a_sign, the_end, ended, a_word};
ghost use Rattle.ts_text.specs.declared.token.TokenKind.TheVariants.{Word};
ghost use Rattle.ts_calendar.specs.Calendars;
ghost use Rattle.ts_calendar.specs.Written.{text_of, part_of};

use crate::{CalendarText, PatternPart};
use std::alloc::Global;
use ts_base::{Name, Stamp, Trouble, is_blank};
use ts_pattern::{WrittenPattern, pattern_in};
use ts_text::{Misfit, TokenKind, plain_front, read_end, read_sign, read_word, skip_blanks};

/// A part as it is written: the runs of a pattern need not be merged nor within the limits.
#[derive(Drop)]
pub(crate) enum WrittenPart {
    Named(Name),
    Own(WrittenPattern),
}

/// A text as it is written.
#[derive(Drop)]
pub(crate) struct WrittenCalendar {
    pub start: Stamp,
    pub patt_start: Stamp,
    pub part: WrittenPart,
}

impl WrittenCalendar {
    /// The text with the runs of its pattern merged.
    pub fn into_text(self) -> Result<CalendarText, Trouble>
        ensures { Answers (Calendars.calendar_of_written (text_of self)) result }
    {
        let part = self.part.into_part()?;
        Ok(CalendarText {
            start: self.start,
            patt_start: self.patt_start,
            part,
        })
    }
}

impl WrittenPart {
    fn into_part(self) -> Result<PatternPart, Trouble>
        ensures { Answers (Calendars.part_of_written (part_of self)) result }
    {
        match self {
            WrittenPart::Named(name) => Ok(PatternPart::Named(name)),
            WrittenPart::Own(written) => {
                let pattern = written.into_pattern()?;
                Ok(PatternPart::Own(pattern))
            }
        }
    }
}

/// What a text says, as it is written.
#[tactic(auto, unfolding(crate::specs::Calendars::calendar_in))]
pub(crate) fn written_calendar(alloc: Global, text: &[u8]) -> Result<WrittenCalendar, Misfit>
    requires { length text.now < 2 ^ 32 }
    ensures ok { IfOk result (λ c. ended [] Calendars.calendar_in text.now ≡ Ok (text_of c, [])) }
    ensures cause { IfErr result (λ misfit. Refuses misfit (ended [] Calendars.calendar_in text.now)) }
{
    let mut rest = Rest { text };
    let (start, patt_start) = rest.dates()?;
    let part = rest.part(alloc)?;
    rest.end()?;
    Ok(WrittenCalendar {
        start,
        patt_start,
        part,
    })
}

/// The bytes that are still to be read.
#[derive(Drop)]
struct Rest<'a> {
    text: &'a [u8],
}

impl<'a> Rest<'a> {
    fn sign(&mut self, sign: u8) -> Result<(), Misfit>
        ensures ok { IfOk result (λ _. a_sign sign self.old.text.now ≡ Ok (tt, self.new.text.now)) }
        ensures cause { IfErr result (λ misfit. RefusesExactly misfit (a_sign sign self.old.text.now)) }
        ensures shorter { IfOk result (λ _. length self.new.text.now ≤ length self.old.text.now) }
    {
        self.text = read_sign(self.text, sign)?;
        Ok(())
    }

    fn word(&mut self, word: &[u8]) -> Result<(), Misfit>
        ensures ok { IfOk result (λ _. a_word word.now self.old.text.now ≡ Ok (tt, self.new.text.now)) }
        ensures cause { IfErr result (λ misfit. RefusesExactly misfit (a_word word.now self.old.text.now)) }
        ensures shorter { IfOk result (λ _. length self.new.text.now ≤ length self.old.text.now) }
    {
        self.text = read_word(self.text, word)?;
        Ok(())
    }

    fn end(&self) -> Result<(), Misfit>
        ensures ok { IfOk result (λ _. the_end [] self.now.text.now ≡ Ok (tt, [])) }
        ensures cause { IfErr result (λ misfit. RefusesExactly misfit (the_end [] self.now.text.now)) }
    {
        read_end(self.text, &[])
    }

    // The start and the pattern start, each with a comma behind it.
    #[tactic(auto, unfolding(crate::specs::Calendars::dates_in))]
    fn dates(&mut self) -> Result<(Stamp, Stamp), Misfit>
        ensures ok { IfOk result (λ x. Calendars.dates_in self.old.text.now ≡ Ok ((x.0, x.1), self.new.text.now)) }
        ensures cause { IfErr result (λ misfit. RefusesExactly misfit (Calendars.dates_in self.old.text.now)) }
        ensures shorter { IfOk result (λ _. length self.new.text.now ≤ length self.old.text.now) }
    {
        let start = self.date(b"startdate")?;
        self.sign(b',')?;
        let patt_start = self.date(b"pattstart")?;
        self.sign(b',')?;
        Ok((start, patt_start))
    }

    // A certain word, and a stamp in brackets.
    #[tactic(auto, unfolding(crate::specs::Calendars::date_in))]
    fn date(&mut self, word: &[u8]) -> Result<Stamp, Misfit>
        ensures ok { IfOk result (λ s. Calendars.date_in word.now self.old.text.now ≡ Ok (s, self.new.text.now)) }
        ensures cause { IfErr result (λ misfit. RefusesExactly misfit (Calendars.date_in word.now self.old.text.now)) }
        ensures shorter { IfOk result (λ _. length self.new.text.now ≤ length self.old.text.now) }
    {
        self.word(word)?;
        self.sign(b'(')?;
        let stamp = self.stamp()?;
        self.sign(b')')?;
        Ok(stamp)
    }

    // A stamp before a closing bracket.
    fn stamp(&mut self) -> Result<Stamp, Misfit>
        ensures ok { IfOk result (λ s. Calendars.stamp_in self.old.text.now ≡ Ok (s, self.new.text.now)) }
        ensures cause { IfErr result (λ misfit. RefusesExactly misfit (Calendars.stamp_in self.old.text.now)) }
        ensures shorter { IfOk result (λ _. length self.new.text.now ≤ length self.old.text.now) }
    {
        let text = skip_blanks(self.text);
        let (bytes, rest) = text.split_at(inside_len(text));
        match Stamp::read(trimmed(bytes)) {
            Some(stamp) => {
                self.text = rest;
                Ok(stamp)
            }
            None => Err(Misfit::here(text)),
        }
    }

    // Which pattern.
    #[tactic(auto, unfolding(crate::specs::Calendars::part_in))]
    fn part(&mut self, alloc: Global) -> Result<WrittenPart, Misfit>
        requires { length self.old.text.now < 2 ^ 32 }
        ensures ok { IfOk result (λ p. Calendars.part_in self.old.text.now ≡ Ok (part_of p, self.new.text.now)) }
        ensures cause { IfErr result (λ misfit. Refuses misfit (Calendars.part_in self.old.text.now)) }
    {
        if self.part_word()? {
            self.name_part(alloc)
        } else {
            self.pattern_part(alloc)
        }
    }

    // Whether a name follows, or a pattern.
    #[tactic(auto, unfolding(crate::specs::Calendars::part_word_in))]
    fn part_word(&mut self) -> Result<bool, Misfit>
        ensures ok { IfOk result
            (λ is_named. Calendars.part_word_in self.old.text.now ≡ Ok (is_named, self.new.text.now)) }
        ensures cause { IfErr result (λ misfit. RefusesExactly misfit (Calendars.part_word_in self.old.text.now)) }
        ensures shorter { IfOk result (λ _. length self.new.text.now ≤ length self.old.text.now) }
    {
        let here = skip_blanks(self.text);
        if let Some((TokenKind::Word, length)) = plain_front(here) {
            let (word, rest) = here.split_at(length);
            if let Some(is_named) = names_pattern(word) {
                self.text = rest;
                return Ok(is_named);
            }
        }
        Err(Misfit::here(here))
    }

    // The name of a pattern, in brackets.
    #[tactic(auto, unfolding(crate::specs::Calendars::name_part_in))]
    fn name_part(&mut self, alloc: Global) -> Result<WrittenPart, Misfit>
        ensures ok { IfOk result (λ p. Calendars.name_part_in self.old.text.now ≡ Ok (part_of p, self.new.text.now)) }
        ensures cause { IfErr result (λ misfit. Refuses misfit (Calendars.name_part_in self.old.text.now)) }
    {
        self.sign(b'(')?;
        let name = self.name(alloc)?;
        self.sign(b')')?;
        Ok(WrittenPart::Named(name))
    }

    // A word of 1 to 32 bytes.
    #[tactic(auto, unfolding(crate::specs::Calendars::name_in))]
    fn name(&mut self, alloc: Global) -> Result<Name, Misfit>
        ensures ok { IfOk result (λ n. Calendars.name_in self.old.text.now ≡ Ok (n, self.new.text.now)) }
        ensures cause { IfErr result (λ misfit. Refuses misfit (Calendars.name_in self.old.text.now)) }
    {
        let here = skip_blanks(self.text);
        if let Some((TokenKind::Word, length)) = plain_front(here) {
            let (word, rest) = here.split_at(length);
            if let Some(name) = Name::read(alloc, word)? {
                self.text = rest;
                return Ok(name);
            }
        }
        Err(Misfit::here(here))
    }

    // A pattern as it is written, in brackets.
    #[tactic(auto, unfolding(crate::specs::Calendars::pattern_part_in))]
    fn pattern_part(&mut self, alloc: Global) -> Result<WrittenPart, Misfit>
        requires { length self.old.text.now < 2 ^ 32 }
        ensures ok { IfOk result
            (λ p. Calendars.pattern_part_in self.old.text.now ≡ Ok (part_of p, self.new.text.now)) }
        ensures cause { IfErr result (λ misfit. Refuses misfit (Calendars.pattern_part_in self.old.text.now)) }
    {
        self.sign(b'(')?;
        let (pattern, rest) = pattern_in(alloc, self.text)?;
        self.text = rest;
        self.sign(b')')?;
        Ok(WrittenPart::Own(pattern))
    }
}

// Whether a word says that a name follows, or that a pattern does.
fn names_pattern(word: &[u8]) -> Option<bool>
    ensures { result ≡ Calendars.part_as Word word.now }
{
    if word == b"pattname".as_slice() {
        return Some(true);
    }
    if word == b"pattern".as_slice() {
        Some(false)
    } else {
        None
    }
}

fn inside_len(text: &[u8]) -> usize
    ensures value { result ≡ Calendars.inside_len text.now }
    ensures within { result ≤ length text.now }
{
    for (at, byte) in text.iter().enumerate() {
        if *byte == b')' {
            return at;
        }
    }
    text.len()
}

// The text without the blanks at its end.
fn trimmed(text: &[u8]) -> &[u8]
    ensures { result.now ≡ Calendars.trimmed text.now }
{
    let mut rest = text;
    while let [front @ .., last] = rest {
        if !is_blank(*last) {
            break;
        }
        rest = front;
    }
    rest
}
