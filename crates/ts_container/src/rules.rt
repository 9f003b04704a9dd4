// The rules that definitions keep together.
ghost use Rattle.std.specs.Prelude.{◌≡◌, ◌↔◌, ◌<◌, Any, IsTrue, length};
ghost use Rattle.ts_model.specs.Definitions.{at_slot, references, calendar_reference, container_slots};
ghost use Rattle.ts_layout.specs.Meaning.{IsDef, quota_in, sum_of_quotas};
ghost use Rattle.ts_slots.specs.Written.{IsWritten};
ghost use Rattle.ts_container.specs.Reading.{AreFilledAmong, IsTakenAmong, part_references, references_written};

use crate::found::Broken;
use ts_base::Stamp;
use ts_model::{Def, Defs, Kind};
use ts_slots::{Part, Written};

/// Whether a definition of the kind has the name, or a calendar that breaks a rule.
pub(crate) fn is_taken(defs: &Defs, broken: &[Broken], kind: Kind, name: &[u8]) -> bool
    ensures { IsTrue result ↔ IsTakenAmong defs.now.definitions broken.now kind name.now }
{
    defs.find(kind, name).is_some() || (kind == Kind::Calendar && has_name(broken, name))
}

// Whether one of these calendars has the name.
fn has_name(broken: &[Broken], name: &[u8]) -> bool
    ensures { IsTrue result ↔ Any (λ b. b.name ≡ name.now) broken.now }
{
    broken
        .iter()
        .any(|calendar| calendar.name.as_slice() == name)
}

// Whether one of these calendars stands in the slot.
fn has_slot(broken: &[Broken], slot: u16) -> bool
    ensures { IsTrue result ↔ Any (λ b. b.slot ≡ slot) broken.now }
{
    broken.iter().any(|calendar| calendar.slot == slot)
}

/// Whether something stands in each slot to which what is written refers.
pub(crate) fn is_resolved(defs: &Defs, broken: &[Broken], written: &Written) -> bool
    requires { IsWritten defs.now.definitions.format written.now }
    ensures { IsTrue result ↔ AreFilledAmong defs.now.definitions broken.now (references_written written.now) }
{
    match written {
        Written::Whole(def) => is_there(defs, broken, def),
        Written::Form(form) => has_part(defs, broken, &form.part),
    }
}

// Whether the pattern stands in its slot, where a calendar says one.
fn has_part(defs: &Defs, broken: &[Broken], part: &Part) -> bool
    ensures { IsTrue result ↔ AreFilledAmong defs.now.definitions broken.now (part_references part.now) }
{
    match part {
        Part::By(slot) => defs.get(Kind::Pattern, *slot as u16).is_some(),
        Part::Own(_) => true,
    }
}

// Whether something stands in each slot to which a definition refers.
fn is_there(defs: &Defs, broken: &[Broken], def: &Def) -> bool
    requires { IsDef defs.now.definitions.format def.now }
    ensures { IsTrue result ↔ AreFilledAmong defs.now.definitions broken.now (references def.now) }
{
    match def {
        Def::RowType { .. } | Def::Pattern { .. } => true,
        Def::Calendar { by, .. } => match by {
            Some(slot) => defs.get(Kind::Pattern, *slot as u16).is_some(),
            None => true,
        },
        Def::Container { row_type, .. } => defs.get(Kind::RowType, *row_type as u16).is_some(),
        Def::Series {
            container,
            regular,
            ..
        } => {
            defs.get(Kind::Container, *container as u16).is_some()
                && has_calendar(defs, broken, regular)
        }
    }
}

// Whether a series has a calendar, where it is regular.
fn has_calendar(defs: &Defs, broken: &[Broken], regular: &Option<(u8, Stamp)>) -> bool
    ensures { IsTrue result ↔ AreFilledAmong defs.now.definitions broken.now (calendar_reference regular.now) }
{
    match regular {
        Some((calendar, _)) => {
            let slot = *calendar as u16;
            defs.get(Kind::Calendar, slot).is_some() || has_slot(broken, slot)
        }
        None => true,
    }
}

/// The quotas of all containers together.
pub fn sum_of_quotas(defs: &Defs) -> u64
    requires { length defs.now.definitions.containers ≡ container_slots }
    ensures { result ≡ sum_of_quotas defs.now.definitions.containers }
{
    let mut sum = 0;
    for slot in 0..64 {
        sum += quota_at(defs, slot) as u64;
    }
    sum
}

// The quota of the container in a slot; 0 where there is none.
fn quota_at(defs: &Defs, slot: u16) -> u32
    requires { slot < container_slots }
    ensures { result ≡ quota_in (at_slot slot defs.now.definitions.containers) }
{
    match defs.get(Kind::Container, slot) {
        Some(Def::Container { quota, .. }) => *quota,
        _ => 0,
    }
}
