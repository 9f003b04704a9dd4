// The routine that makes a set.
ghost use Rattle.std.specs.Prelude.{ℕ, IfOk};
ghost use Rattle.ts_command.specs.declared.command.Command.TheVariants.{RollingCreate};
ghost use Rattle.ts_command.specs.Form.{HasForm};
ghost use Rattle.ts_model.specs.declared.kind.Kind.TheVariants.{Series as AllSeries};
ghost use Rattle.ts_answer.specs.Decided.{IsDecision, FitsSlot};

use crate::live::kept_by;
use std::alloc::Global;
use ts_base::{Key, Name, Refusal, Stamp, Trouble};
use ts_define::{calendar_named, new_regular, slot_named};
use ts_model::{Def, Defs, Kind};
use ts_rolling::control_key;

/// The definition of the control of a new set, and the slot for it: a regular series, whose key tells how many windows
/// are kept. A calendar and a container that aren't there are refused first, then any control that the set has.
pub fn new_set(
    alloc: Global,
    defs: &Defs,
    set: &Key,
    calendar: &Name,
    origin: Stamp,
    container: &Name,
    kept: i64,
) -> Result<(u16, Option<Def>), Trouble>
    requires form { HasForm (RollingCreate set.now calendar.now origin container.now kept) }
    ensures fits { IfOk result (λ change. FitsSlot AllSeries change.0 change.1 defs.now.definitions) }
    ensures decision { (count : ℕ) → IsDecision AllSeries
        (RollingCreate set.now calendar.now origin container.now kept) result defs.now.definitions count }
{
    calendar_named(defs, calendar)?;
    slot_named(defs, Kind::Container, container)?;
    if kept_by(defs, set).is_some() {
        return Err(Trouble::Refused(Refusal::NameTaken));
    }
    let key = control_key(alloc, set, kept.unsigned_abs() as u16)?;
    new_regular(defs, &key, calendar, origin, container)
}
