// A page, its head and its cells.
ghost use Rattle.std.specs.Prelude.{◌≡◌, ◌+◌, ◌*◌, ◌≤◌, length, drop, Some, ◌++◌};
ghost use Rattle.ts_page.specs.Pages.{page_size, head_size, head_of, head_bytes, FitsHead, zero_page};
ghost use Rattle.ts_page.specs.Cell.{cell_of, with_cell};

use crate::field::{are_zero, eight_bytes, two_bytes};
use crate::volume::HEAD;

/// 4096 bytes.
#[derive(Clone, Copy, Debug, PartialEq, Eq)]
pub struct Page {
    pub bytes: [u8; 4096],
}

/// What the first 32 bytes of an element page say.
#[derive(Clone, Copy, Debug, PartialEq, Eq)]
pub enum Head {
    Free,
    /// The slot of its series, its number of elements and the offset of its first cell.
    Regular { series: u16, count: u16, base: u64 },
    /// The slot of its series and its number of elements.
    Irregular { series: u16, count: u16 },
}

impl Page {
    /// A page of zeros.
    pub fn zero() -> Page
        ensures { result.bytes ≡ zero_page }
    {
        Page { bytes: [0; 4096] }
    }

    /// The head, where the first 32 bytes are one.
    pub fn head(&self) -> Option<Head>
        ensures { result ≡ head_of self.now.bytes }
    {
        let bytes = &self.bytes;
        let series = two_bytes(bytes, 1);
        let count = two_bytes(bytes, 3);
        match bytes[0] {
            0 => Some(Head::Free),
            1 if are_zero(&bytes[13..HEAD]) => Some(Head::Regular {
                series,
                count,
                base: eight_bytes(bytes, 5),
            }),
            2 if are_zero(&bytes[5..HEAD]) => Some(Head::Irregular { series, count }),
            _ => None,
        }
    }

    /// Writes the head over the first 32 bytes.
    pub fn set_head(&mut self, head: &Head)
        ensures ok { self.new.bytes ≡ head_bytes head.now ++ drop head_size self.old.bytes }
        ensures read_again { head_of self.new.bytes ≡ Some head.now }
    {
        self.bytes[..HEAD].copy_from_slice(&head_bytes(head));
    }

    /// The bytes of the cell of that number, where each cell has so many.
    pub fn cell(&self, number: usize, size: usize) -> &[u8]
        requires within { head_size + (number + 1) * size ≤ page_size }
        ensures { result.now ≡ cell_of number size self.now.bytes }
    {
        let at = HEAD + number * size;
        &self.bytes[at..at + size]
    }

    /// Writes the cell of that number, where each cell has as many bytes.
    pub fn set_cell(&mut self, number: usize, from: &[u8])
        requires within { head_size + (number + 1) * length from.now ≤ page_size }
        ensures ok { self.new.bytes ≡ with_cell number from.now self.old.bytes }
        ensures read_again { cell_of number (length from.now) self.new.bytes ≡ from.now }
    {
        let at = HEAD + number * from.len();
        self.bytes[at..at + from.len()].copy_from_slice(from);
    }
}

fn head_bytes(head: &Head) -> [u8; 32]
    ensures bytes { result ≡ head_bytes head.now }
    ensures fits { FitsHead head.now }
{
    let mut bytes = [0; HEAD];
    match head {
        Head::Free => {}
        Head::Regular {
            series,
            count,
            base,
        } => {
            bytes[0] = 1;
            bytes[1..3].copy_from_slice(&series.to_be_bytes());
            bytes[3..5].copy_from_slice(&count.to_be_bytes());
            bytes[5..13].copy_from_slice(&base.to_be_bytes());
        }
        Head::Irregular { series, count } => {
            bytes[0] = 2;
            bytes[1..3].copy_from_slice(&series.to_be_bytes());
            bytes[3..5].copy_from_slice(&count.to_be_bytes());
        }
    }
    bytes
}
