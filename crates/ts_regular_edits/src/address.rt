// The element that a stamp addresses.
ghost use Rattle.std.specs.Prelude.{◌≡◌, ◌<◌, ◌^◌, Err, IfOk, IfErr};
ghost use Rattle.ts_offset.specs.Grid.{offset_of};
ghost use Rattle.ts_regular_edits.specs.Address.{IsAddressed};

use ts_base::{Refusal, Stamp};
use ts_offset::Grid;

/// Where an element of a regular series is: its offset, and the start of its interval.
#[derive(Clone, Copy)]
pub(crate) struct Address {
    pub(crate) offset: u64,
    pub(crate) start: Stamp,
}

/// That of the element that a stamp addresses. There are at most 800000000001 on starts.
pub(crate) fn addressed(grid: &Grid<'_>, stamp: Stamp) -> Result<Address, Refusal>
    ensures ok { IfOk result (λ found. IsAddressed grid.now stamp found.offset found.start) }
    ensures limit { IfOk result (λ found. found.offset < 2 ^ 63) }
    ensures err { IfErr result (λ why. offset_of grid.now stamp ≡ Err why) }
{
    let offset = grid.offset_of(stamp)?;
    match grid.stamp_of(offset) {
        Some(start) => Ok(Address { offset, start }),
        // Each offset of a stamp has a start.
        None => Err(Refusal::OffStamp),
    }
}
