// A reader of scripts by bytes, which keeps one statement.
ghost use Rattle.std.specs.Prelude.{◌≡◌, ◌≢◌, ◌≤◌, ◌<◌, ℕ, List, [], Option, Some, None, IfOk, IfNone, IfSome, take};
ghost use Rattle.std.specs.Prelude.{length, ◌==◌, ◌&&◌, not, if◌then◌else◌};
ghost use Rattle.std.specs.List.{prefix_len};
ghost use Rattle.ts_base.specs.Name.{is_blank};
ghost use Rattle.ts_items.specs.Items.{items_from, place_from, after, is_unended_at};
ghost use Rattle.ts_items.specs.Reader.{items_of, start, is_plain};

use std::alloc::{AllocError, Global};
use std::marker::Model;
use ts_base::is_blank;

/// The most bytes of a statement, with its `;`.
const LIMIT: usize = 65536;

/// How an item of a script ends.
#[derive(Clone, Copy, Debug, PartialEq, Eq)]
pub enum Cut {
    /// A statement that isn't blank, by its `;`.
    Statement,
    /// A statement without an end, by its 65536th byte. What follows is skipped up to the next `;`.
    TooLong,
    /// A statement that isn't blank so far, by the end of the script.
    Unended,
}

#[derive(Clone, Copy, Debug, PartialEq, Eq)]
enum Phase {
    Within,
    Ended,
    Past,
}

/// How many bytes were taken, and how the item ends whose last byte is the last of these.
#[derive(Clone, Copy, Debug, PartialEq, Eq)]
pub struct Fed {
    pub taken: usize,
    pub cut: Option<Cut>,
}

/// Reads a script in whatever pieces it comes.
#[derive(Drop)]
pub struct Reader {
    text: Vec<u8>,
    phase: Phase,
    even: bool,
    blank: bool,
}

impl Model for Reader {
    ghost use Rattle.std.specs.Prelude.{◌≤◌, vec_capacity};
    ghost use Rattle.ts_items.specs.Reader.{Reading};

    ghost Value = { Reading };

    ghost use Rattle.ts_items.specs.Reader.{place_of, Tells};

    ghost view = { λ r. record { place = place_of r.phase r.text.items; text = r.text.items } };

    ghost invariant = { λ r. (65536 ≤ vec_capacity r.text) × Tells r.phase r.text.items r.even r.blank };
}

fn ends(byte: u8, even: bool) -> bool
    ensures { result ≡ (byte == 59 && even) }
{
    byte == b';' && even
}

fn still_even(even: bool, byte: u8) -> bool
    ensures { result ≡ (if byte == 39 then not even else even) }
{
    if byte == b'\'' { !even } else { even }
}

fn still_blank(blank: bool, byte: u8) -> bool
    ensures { result ≡ (blank && is_blank byte) }
{
    blank && is_blank(byte)
}

fn is_plain(byte: u8) -> bool
    ensures { result ≡ is_plain byte }
{
    byte != b';' && byte != b'\''
}

// How many plain bytes stand in front, of which at most so many count.
fn plain_in_front(room: usize, bytes: &[u8]) -> usize
    ensures value { result ≡ prefix_len is_plain (take room bytes.now) }
    ensures within { result ≤ length bytes.now }
    ensures room { result ≤ room }
{
    bytes
        .iter()
        .take(room)
        .take_while(|byte| is_plain(**byte))
        .count()
}

impl Reader {
    /// At the start of a script. It takes all the memory that reading needs.
    pub fn new(alloc: Global) -> Result<Reader, AllocError>
        ensures { IfOk result (λ reader. reader ≡ start) }
    {
        Ok(Reader {
            text: Vec::with_capacity(alloc, LIMIT)?,
            phase: Phase::Within,
            even: true,
            blank: true,
        })
    }

    /// The statement with its `;`, after `Cut::Statement`.
    pub fn text(&self) -> &[u8]
        ensures text { result.now ≡ self.now.text }
        ensures short { length result.now ≤ 65536 }
    {
        &self.text
    }

    // At the start of a statement.
    fn restart(&mut self)
        ensures { self.new ≡ start }
    {
        self.text.clear();
        self.phase = Phase::Within;
        self.even = true;
        self.blank = true;
    }

    // Lets go of a statement that has ended.
    fn begin(&mut self)
        ensures place { self.new.place ≡ self.old.place }
        ensures text { IfSome self.new.place (λ t. self.new.text ≡ t) }
    {
        if self.phase == Phase::Ended {
            self.restart();
        }
    }

    // Takes a byte.
    fn take(&mut self, byte: u8) -> Option<Cut>
        requires { IfSome self.old.place (λ t. self.old.text ≡ t) }
        ensures after { after self.old.place byte ≡ (items_of result self.new.text, self.new.place) }
        ensures text { IfNone result (IfSome self.new.place (λ t. self.new.text ≡ t)) }
        ensures cut { result ≢ Some Cut.Unended }
    {
        if self.phase == Phase::Past {
            if byte == b';' {
                self.restart();
            }
            return None;
        }
        let ends = ends(byte, self.even);
        if ends {
            if self.blank {
                self.restart();
                return None;
            }
        }
        let Ok(()) = self.text.push(byte) else {
            unreachable!()
        };
        if ends {
            self.phase = Phase::Ended;
            return Some(Cut::Statement);
        }
        let blank = still_blank(self.blank, byte);
        if self.text.len() == LIMIT {
            if blank {
                self.text.clear();
                self.even = true;
                self.blank = true;
                return None;
            }
            self.phase = Phase::Past;
            return Some(Cut::TooLong);
        }
        self.even = still_even(self.even, byte);
        self.blank = blank;
        None
    }

    // Takes plain bytes of a statement that isn't blank so far.
    fn take_plain(&mut self, bytes: &[u8]) -> usize
        requires { IfSome self.old.place (λ t. self.old.text ≡ t) }
        ensures within { result ≤ length bytes.now }
        ensures items { items_from self.old.place (take result bytes.now) ≡ [] }
        ensures place { place_from self.old.place (take result bytes.now) ≡ self.new.place }
        ensures text { IfSome self.new.place (λ t. self.new.text ≡ t) }
    {
        let Phase::Within = self.phase else {
            return 0;
        };
        if self.blank {
            return 0;
        }
        let count = plain_in_front(LIMIT - 1 - self.text.len(), bytes);
        let Ok(()) = self.text.extend_from_slice(&bytes[..count]) else {
            unreachable!()
        };
        count
    }

    // Takes plain bytes, and then a byte of any kind.
    fn advance(&mut self, bytes: &[u8]) -> Fed
        requires text { IfSome self.old.place (λ t. self.old.text ≡ t) }
        ensures taken { result.taken ≤ length bytes.now }
        ensures some { 0 < length bytes.now → 0 < result.taken }
        ensures items { items_from self.old.place (take result.taken bytes.now) ≡ items_of result.cut self.new.text }
        ensures place { place_from self.old.place (take result.taken bytes.now) ≡ self.new.place }
        ensures text { IfNone result.cut (IfSome self.new.place (λ t. self.new.text ≡ t)) }
        ensures first { (k : ℕ) → k < result.taken → items_from self.old.place (take k bytes.now) ≡ [] }
        ensures cut { result.cut ≢ Some Cut.Unended }
    {
        let plain = self.take_plain(bytes);
        if plain == bytes.len() {
            return Fed {
                taken: plain,
                cut: None,
            };
        }
        let cut = self.take(bytes[plain]);
        Fed {
            taken: plain + 1,
            cut,
        }
    }

    /// Takes bytes of the piece, up to the one that ends an item.
    pub fn feed(&mut self, piece: &[u8]) -> Fed
        ensures taken { result.taken ≤ length piece.now }
        ensures some { 0 < length piece.now → 0 < result.taken }
        ensures whole { IfNone result.cut (result.taken ≡ length piece.now) }
        ensures items { items_from self.old.place (take result.taken piece.now) ≡ items_of result.cut self.new.text }
        ensures place { place_from self.old.place (take result.taken piece.now) ≡ self.new.place }
        ensures first { (k : ℕ) → k < result.taken → items_from self.old.place (take k piece.now) ≡ [] }
        ensures cut { result.cut ≢ Some Cut.Unended }
    {
        self.begin();
        let mut taken = 0;
        while taken < piece.len() {
            let fed = self.advance(&piece[taken..]);
            taken += fed.taken;
            if fed.cut.is_some() {
                return Fed {
                    taken,
                    cut: fed.cut,
                };
            }
        }
        Fed { taken, cut: None }
    }

    /// At the end of the script: `Unended` where it ends within a statement that isn't blank so far.
    pub fn finish(&mut self) -> Option<Cut>
        ensures unended { result ≡ (if is_unended_at self.old.place then Some Cut.Unended else None) }
        ensures others { self.new ≡ self.old }
    {
        if self.phase == Phase::Within && !self.blank {
            Some(Cut::Unended)
        } else {
            None
        }
    }
}
