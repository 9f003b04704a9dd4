// A checker of a script, which keeps one statement and where it stands.
ghost use Rattle.std.specs.Prelude.{◌≡◌, ◌≤◌, ◌<◌, ◌+◌, ◌^◌, [], ◌∷◌, ◌++◌, ℕ, List, Some, IfOk, IsErr, OnOk, length};
ghost use Rattle.std.specs.Prelude.{take, false};
ghost use Rattle.ts_base.specs.Refusal.{refusal_name};
ghost use Rattle.ts_items.specs.Reader.{item_of};
ghost use Rattle.ts_command.specs.Grammar.{command_of, request_of};
ghost use Rattle.ts_syntax.specs.Places.{IsBehind};
ghost use Rattle.ts_syntax.specs.Mistakes.{Mistake, mistakes_of, mistakes_from, mistakes_at_end};
ghost use Rattle.ts_syntax.specs.Lines.{IsLine};
ghost use Rattle.ts_syntax.specs.Reading.{Stands, HasRead, IsReading, Reads, Told, refused_at, syntax_place, shows_at};
ghost use Rattle.ts_syntax.specs.Reading.{told_at, name_of};

use crate::line::make_line;
use crate::output::Output;
use crate::position::Position;
use crate::words::describe;
use std::alloc::{AllocError, Global};
use ts_base::{Bytes, Refusal, Trouble};
use ts_command::{Cut, Fed, Reader, read_command};

/// What keeps a mistake from being told.
#[derive(Clone, Copy, Debug, PartialEq, Eq)]
pub(crate) enum CheckFault {
    Output,
    Memory,
}

/// A script that is checked.
#[derive(Drop)]
pub(crate) struct Checker {
    pub(crate) alloc: Global,
    pub(crate) reader: Reader,
    /// The bytes of the statement, without the blanks in front.
    pub(crate) text: Bytes,
    /// Where these begin.
    pub(crate) begin: Position,
    /// Where the bytes end that were read.
    pub(crate) end: Position,
    /// Whether a mistake was told.
    pub(crate) found: bool,
}

// The name of a refusal.
fn name(cut: Cut) -> &'static [u8]
    ensures { result.now ≡ name_of cut }
{
    match cut {
        Cut::Statement => b"Syntax",
        Cut::TooLong => b"TooLong",
        Cut::Unended => b"Unended",
    }
}

// The place of a Syntax.
fn syntax_place(refusal: Refusal) -> Option<usize>
    ensures { result ≡ syntax_place refusal }
{
    match refusal {
        Refusal::Syntax { place } => Some(place as usize),
        _ => None,
    }
}

// The place that is told of a statement of so many bytes that is refused there, if it is.
fn told_at(cut: Cut, size: usize, refused: Option<usize>) -> Option<usize>
    ensures { result ≡ told_at cut size refused }
{
    match refused {
        Some(place) => Some(place),
        None => match cut {
            Cut::Statement => None,
            Cut::TooLong | Cut::Unended => Some(size),
        },
    }
}

impl Checker {
    /// At the start of a script.
    pub(crate) fn new(alloc: Global) -> Result<Checker, AllocError>
        ensures read { IfOk result (λ checker. HasRead [] checker) }
        ensures found { IfOk result (λ checker. checker.found ≡ false) }
    {
        Ok(Checker {
            alloc,
            reader: Reader::new(alloc)?,
            text: Bytes::new(alloc),
            begin: Position::start(),
            end: Position::start(),
            found: false,
        })
    }

    // Whether an item ended, or a statement that isn't blank goes on.
    fn shows(&mut self, cut: Option<Cut>) -> bool
        ensures value { result ≡ shows_at cut self.old.reader.place }
        ensures others { self.new ≡ self.old }
    {
        cut.is_some() || self.reader.finish().is_some()
    }

    // Reads a byte of what comes before a statement, or its first.
    fn read_lead(&mut self, bytes: &[u8]) -> Result<Fed, AllocError>
        requires some { 0 < length bytes.now }
        requires lead { self.old.text ≡ [] }
        ensures some { IfOk result (λ fed. 0 < fed.taken) }
        ensures within { IfOk result (λ fed. fed.taken ≤ length bytes.now) }
        ensures reads { IfOk result (λ fed. (front : List ℕ) → length front + length bytes.now < 2 ^ 32
            → HasRead front self.old →
            Reads front (take fed.taken bytes.now) fed.cut self.old self.new) }
        ensures found { self.new.found ≡ self.old.found }
    {
        let fed = self.reader.feed(&bytes[..1]);
        let read = &bytes[..fed.taken];
        self.end = self.end.behind(read);
        if !self.shows(fed.cut) {
            self.begin = self.end;
            return Ok(fed);
        }
        self.text.extend_from_slice(read)?;
        Ok(fed)
    }

    // Reads bytes of a statement, up to the end of its item.
    fn read_body(&mut self, bytes: &[u8]) -> Result<Fed, AllocError>
        requires some { 0 < length bytes.now }
        requires body { 0 < length self.old.text }
        ensures some { IfOk result (λ fed. 0 < fed.taken) }
        ensures within { IfOk result (λ fed. fed.taken ≤ length bytes.now) }
        ensures reads { IfOk result (λ fed. (front : List ℕ) → length front + length bytes.now < 2 ^ 32
            → HasRead front self.old →
            Reads front (take fed.taken bytes.now) fed.cut self.old self.new) }
        ensures found { self.new.found ≡ self.old.found }
    {
        let fed = self.reader.feed(bytes);
        let read = &bytes[..fed.taken];
        self.end = self.end.behind(read);
        self.text.extend_from_slice(read)?;
        Ok(fed)
    }

    // Reads on, up to the end of an item.
    fn read_on(&mut self, bytes: &[u8]) -> Result<Fed, AllocError>
        requires { 0 < length bytes.now }
        ensures some { IfOk result (λ fed. 0 < fed.taken) }
        ensures within { IfOk result (λ fed. fed.taken ≤ length bytes.now) }
        ensures reads { IfOk result (λ fed. (front : List ℕ) → length front + length bytes.now < 2 ^ 32
            → HasRead front self.old →
            Reads front (take fed.taken bytes.now) fed.cut self.old self.new) }
        ensures found { self.new.found ≡ self.old.found }
    {
        if self.text.as_slice().is_empty() {
            self.read_lead(bytes)
        } else {
            self.read_body(bytes)
        }
    }

    // Where the grammar refuses the statement, if it does.
    fn refused_at(&self) -> Result<Option<usize>, AllocError>
        requires { length self.now.text < 2 ^ 32 }
        ensures { IfOk result (λ place. place ≡ refused_at (command_of self.now.text)) }
    {
        match read_command(self.alloc, self.text.as_slice()) {
            Ok(_) => Ok(None),
            Err(Trouble::Refused(refusal)) => Ok(syntax_place(refusal)),
            Err(Trouble::Memory(error)) => Err(error),
        }
    }

    // The line of a mistake at a place of the statement.
    fn line_at(&self, cut: Cut, place: usize) -> Result<Bytes, AllocError>
        requires { place ≤ length self.now.text }
        ensures { IfOk result (λ line. (start : List ℕ) (mistake : Mistake)
            → length start + length self.now.text < 2 ^ 32 → IsBehind start self.now.begin →
            mistake.before ≡ start ++ take place self.now.text → refusal_name mistake.refusal ≡ name_of cut
            → IsLine mistake line) }
    {
        let text = self.text.as_slice();
        let position = self.begin.behind(&text[..place]);
        let words = describe(self.alloc, &text[..place], &text[place..])?;
        make_line(self.alloc, position, name(cut), words.as_slice())
    }

    // Says the line of a mistake at a place of the statement.
    fn say_at<O: Output>(
        &mut self,
        output: &mut O,
        cut: Cut,
        place: usize,
    ) -> Result<(), CheckFault>
        requires { place ≤ length self.old.text }
        ensures told { (start : List ℕ) (mistake : Mistake) → length start + length self.old.text < 2 ^ 32
            → IsBehind start self.old.begin →
            mistake.before ≡ start ++ take place self.old.text → refusal_name mistake.refusal ≡ name_of cut →
            Told O.tells (mistake ∷ []) result self.old.found self.new.found (O.heard output.old) (O.heard output.new) }
        ensures others { self.new ≡ record self.old { found = self.new.found } }
    {
        let Ok(line) = self.line_at(cut, place) else {
            return Err(CheckFault::Memory);
        };
        match output.say(line.as_slice()) {
            Ok(()) => {
                self.found = true;
                Ok(())
            }
            Err(_) => Err(CheckFault::Output),
        }
    }

    // Tells of the statement that a cut ends, if it is refused.
    fn tell<O: Output>(&mut self, output: &mut O, cut: Cut) -> Result<(), CheckFault>
        requires { length self.old.text < 2 ^ 32 }
        ensures told { (front text : List ℕ) → length front < 2 ^ 32 → Stands front text self.old →
            Told O.tells (mistakes_of front text (request_of (item_of cut text))) result self.old.found self.new.found
            (O.heard output.old) (O.heard output.new) }
        ensures others { self.new ≡ record self.old { found = self.new.found } }
    {
        let Ok(refused) = self.refused_at() else {
            return Err(CheckFault::Memory);
        };
        match told_at(cut, self.text.as_slice().len(), refused) {
            Some(place) => self.say_at(output, cut, place),
            None => Ok(()),
        }
    }

    // Reads on, and tells of the item that ends there. How many bytes were read.
    fn check_next<O: Output>(&mut self, output: &mut O, bytes: &[u8]) -> Result<usize, CheckFault>
        requires some { 0 < length bytes.now }
        requires reading { IsReading self.old (length bytes.now) }
        ensures some { IfOk result (λ n. 0 < n) }
        ensures within { IfOk result (λ n. n ≤ length bytes.now) }
        ensures read { IfOk result (λ n. (front : List ℕ) → length front + length bytes.now < 2 ^ 32
            → HasRead front self.old → HasRead (front ++ take n bytes.now) self.new) }
        ensures told { IfOk result (λ n. (front : List ℕ) → length front + length bytes.now < 2 ^ 32
            → HasRead front self.old →
            Told O.tells
            (mistakes_from front self.old.reader.place (take n bytes.now)) result self.old.found self.new.found
            (O.heard output.old) (O.heard output.new)) }
        ensures fault { IsErr result → (front : List ℕ) → length front + length bytes.now < 2 ^ 32
            → HasRead front self.old →
            Told O.tells (mistakes_from front self.old.reader.place bytes.now) result self.old.found self.new.found
            (O.heard output.old) (O.heard output.new) }
    {
        let Ok(fed) = self.read_on(bytes) else {
            return Err(CheckFault::Memory);
        };
        let Some(cut) = fed.cut else {
            return Ok(fed.taken);
        };
        match self.tell(output, cut) {
            Ok(()) => {
                self.text.clear();
                self.begin = self.end;
                Ok(fed.taken)
            }
            Err(fault) => Err(fault),
        }
    }

    /// Tells of the items that end in a piece of the script.
    pub(crate) fn check_piece<O: Output>(
        &mut self,
        output: &mut O,
        piece: &[u8],
    ) -> Result<(), CheckFault>
        requires reading { IsReading self.old (length piece.now) }
        ensures read { OnOk result ((front : List ℕ) → length front + length piece.now < 2 ^ 32 → HasRead front self.old
            → HasRead (front ++ piece.now) self.new) }
        ensures told { (front : List ℕ) → length front + length piece.now < 2 ^ 32 → HasRead front self.old →
            Told O.tells (mistakes_from front self.old.reader.place piece.now) result self.old.found self.new.found
            (O.heard output.old) (O.heard output.new) }
    {
        let mut rest = piece;
        while !rest.is_empty() {
            match self.check_next(output, rest) {
                Ok(count) => rest = &rest[count..],
                Err(fault) => return Err(fault),
            }
        }
        Ok(())
    }

    /// Tells of the statement that the end of the script cuts off, if there is one.
    pub(crate) fn check_end<O: Output>(&mut self, output: &mut O) -> Result<(), CheckFault>
        requires { IsReading self.old 0 }
        ensures { (script : List ℕ) → length script < 2 ^ 32 → HasRead script self.old →
            Told O.tells (mistakes_at_end script self.old.reader.place) result self.old.found self.new.found
            (O.heard output.old) (O.heard output.new) }
    {
        match self.reader.finish() {
            Some(_) => self.tell(output, Cut::Unended),
            None => Ok(()),
        }
    }
}
