// The routines that create series.
ghost use Rattle.std.specs.Prelude.{ℕ, IfOk};
ghost use Rattle.ts_command.specs.declared.command.Command.TheVariants.{TSCreate, TSCreateIrr};
ghost use Rattle.ts_command.specs.Form.{HasForm};
ghost use Rattle.ts_model.specs.declared.kind.Kind.TheVariants.{Series as AllSeries};
ghost use Rattle.ts_answer.specs.Decided.{IsDecision, FitsSlot};

use crate::calendars::{calendar_at, calendar_slot};
use crate::slots::{slot_for_series, slot_named};
use ts_base::{Key, Name, Stamp, Trouble};
use ts_model::{Def, Defs, Kind};
use ts_offset::Grid;

/// The definition of a new irregular series, and the slot for it.
pub fn new_irregular(
    defs: &Defs,
    key: &Key,
    container: &Name,
) -> Result<(u16, Option<Def>), Trouble>
    requires form { HasForm (TSCreateIrr key.now container.now) }
    ensures fits { IfOk result (λ change. FitsSlot AllSeries change.0 change.1 defs.now.definitions) }
    ensures decision { (count : ℕ)
        → IsDecision AllSeries (TSCreateIrr key.now container.now) result defs.now.definitions count }
{
    let target = slot_named(defs, Kind::Container, container)?;
    let slot = slot_for_series(defs, key)?;
    let copied = key.copy()?;
    Ok((
        slot,
        Some(Def::Series {
            key: copied,
            container: target as u8,
            regular: None,
        }),
    ))
}

/// The definition of a new regular series, and the slot for it. Its origin is the start of the on interval of the
/// calendar that holds the given one, else the next on start; refused as past the end where there is none.
pub fn new_regular(
    defs: &Defs,
    key: &Key,
    calendar: &Name,
    origin: Stamp,
    container: &Name,
) -> Result<(u16, Option<Def>), Trouble>
    requires form { HasForm (TSCreate key.now calendar.now origin container.now) }
    ensures fits { IfOk result (λ change. FitsSlot AllSeries change.0 change.1 defs.now.definitions) }
    ensures decision { (count : ℕ)
        → IsDecision AllSeries (TSCreate key.now calendar.now origin container.now) result defs.now.definitions count }
{
    let on = calendar_slot(defs, calendar)?;
    let target = slot_named(defs, Kind::Container, container)?;
    let slot = slot_for_series(defs, key)?;
    let grid = match Grid::make(calendar_at(defs, on), origin) {
        Ok(grid) => grid,
        Err(why) => return Err(Trouble::Refused(why)),
    };
    let start = grid.origin();
    // What each stamp keeps: it is within the years of stamps.
    let _units = start.units();
    let copied = key.copy()?;
    Ok((
        slot,
        Some(Def::Series {
            key: copied,
            container: target as u8,
            regular: Some((on as u8, start)),
        }),
    ))
}
