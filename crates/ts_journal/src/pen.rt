// Bytes on their way to the disk: pieces that follow each other go there in few writes.
ghost use Rattle.std.specs.Prelude.{◌≤◌};
ghost use Rattle.ts_journal.specs.Buffer.{buffer_size};

use ts_disk::{Failed, Volume};

/// Three pages: the record of a command, four pages at most, goes to the disk in two writes, and that of one or two
/// pages in one.
const BUFFER: usize = 12288;

/// What isn't written yet, and where it goes. One pen serves all records, so that its buffer is filled with zeros once.
#[derive(Drop)]
pub(crate) struct Pen {
    bytes: [u8; BUFFER],
    filled: usize,
    at: u64,
    ghost within: { filled ≤ buffer_size },
}

impl Pen {
    ghost use Rattle.std.specs.Prelude.{◌≡◌, ◌+◌, ◌++◌, [], length, OnOk};
    ghost use Rattle.ts_page.specs.Pages.{page_size};
    ghost use Rattle.ts_journal.specs.Pen.{pending, Adds, Moves};

    pub(crate) fn new() -> Pen
        ensures { pending result ≡ [] }
    {
        Pen {
            bytes: [0; BUFFER],
            filled: 0,
            at: 0,
        }
    }

    /// Begins anew at this place. What a failed call left on its way is dropped.
    pub(crate) fn begin(&mut self, place: u64)
        ensures place { self.new.at ≡ place }
        ensures empty { pending self.new ≡ [] }
    {
        self.filled = 0;
        self.at = place;
    }

    /// Puts a piece behind what is on its way. Where the buffer has no room for both, the first goes to the disk.
    pub(crate) fn add<V: Volume>(&mut self, vol: &mut V, piece: &[u8]) -> Result<(), Failed>
        requires short { length piece.now ≤ page_size }
        requires room { self.old.at + length (pending self.old) + length piece.now ≤ (V.device vol.old).size }
        ensures { Adds V.tells piece.now result self.old self.new (V.device vol.old) (V.device vol.new) }
    {
        self.make_room(vol, piece.len())?;
        self.hold(piece);
        Ok(())
    }

    // Writes what is on its way, where so many bytes more have no room with it.
    fn make_room<V: Volume>(&mut self, vol: &mut V, more: usize) -> Result<(), Failed>
        requires short { more ≤ page_size }
        requires room { self.old.at + length (pending self.old) ≤ (V.device vol.old).size }
        ensures written { Adds V.tells [] result self.old self.new (V.device vol.old) (V.device vol.new) }
        ensures room { OnOk result (self.new.filled + more ≤ buffer_size) }
    {
        if more > BUFFER - self.filled {
            return self.flush(vol);
        }
        Ok(())
    }

    /// Goes on at this place. What is on its way goes to the disk first, unless the place is right behind it.
    pub(crate) fn move_to<V: Volume>(&mut self, vol: &mut V, place: u64) -> Result<(), Failed>
        requires { self.old.at + length (pending self.old) ≤ (V.device vol.old).size }
        ensures { Moves V.tells place result self.old self.new (V.device vol.old) (V.device vol.new) }
    {
        let _size = vol.len();
        if place != self.at + self.filled as u64 {
            self.flush(vol)?;
            self.at = place;
        }
        Ok(())
    }

    /// Writes what is on its way, if anything is.
    pub(crate) fn flush<V: Volume>(&mut self, vol: &mut V) -> Result<(), Failed>
        requires { self.old.at + length (pending self.old) ≤ (V.device vol.old).size }
        ensures written { Adds V.tells [] result self.old self.new (V.device vol.old) (V.device vol.new) }
        ensures emptied { OnOk result (self.new.filled ≡ 0) }
    {
        if self.filled == 0 {
            return Ok(());
        }
        let _size = vol.len();
        vol.write_at(self.at, &self.bytes[..self.filled])?;
        self.at += self.filled as u64;
        self.filled = 0;
        Ok(())
    }

    // Puts a piece behind the others in the buffer.
    fn hold(&mut self, piece: &[u8])
        requires { self.old.filled + length piece.now ≤ buffer_size }
        ensures pending { pending self.new ≡ pending self.old ++ piece.now }
        ensures place { self.new.at ≡ self.old.at }
    {
        let end = self.filled + piece.len();
        self.bytes[self.filled..end].copy_from_slice(piece);
        self.filled = end;
    }
}
