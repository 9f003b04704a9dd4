// The routines that make patterns, and the pattern of a name.
ghost use Rattle.std.specs.Prelude.{◌≡◌, ◌<◌, ℕ, Some, IsSome, IfOk, IsTrue, option_map};
ghost use Rattle.ts_base.specs.Name.{is_name};
ghost use Rattle.ts_command.specs.declared.command.Command.TheVariants.{CreatePattern, NotOp};
ghost use Rattle.ts_command.specs.Form.{HasForm};
ghost use Rattle.ts_model.specs.declared.kind.Kind.TheVariants.{Pattern as Patterns};
ghost use Rattle.ts_model.specs.Definitions.{Definitions, pattern_slots, at_slot};
ghost use Rattle.ts_layout.specs.Chains.{AreFilled};
ghost use Rattle.ts_layout.specs.Meaning.{Layout, IsSound, catalogue_of};
ghost use Rattle.ts_answer.specs.Answer.{wanted};
ghost use Rattle.ts_answer.specs.Decided.{IsDecision, FitsSlot};
ghost use Rattle.ts_answer.specs.Slots.{IsFreeSlot};
ghost use Rattle.ts_answer.specs.Tried.{IsTried};
ghost use Rattle.ts_answer.specs.View.{IsDefinedBy};
ghost use Rattle.ts_define.specs.Patterns.{join_of_patterns, IsMade};

use crate::slots::{slot_for, slot_named};
use std::alloc::Global;
use ts_base::{Bytes, Name, Trouble};
use ts_model::{Def, Defs, Kind};
use ts_pattern::{Junction, Pattern};

/// The definition of the pattern that a text writes, and the slot for it.
pub fn new_pattern(
    alloc: Global,
    defs: &Defs,
    name: &Name,
    text: &Bytes,
) -> Result<(u16, Option<Def>), Trouble>
    requires form { HasForm (CreatePattern name.now text.now) }
    ensures fits { IfOk result (λ change. FitsSlot Patterns change.0 change.1 defs.now.definitions) }
    ensures decision { (count : ℕ)
        → IsDecision Patterns (CreatePattern name.now text.now) result defs.now.definitions count }
{
    let pattern = Pattern::read(alloc, text.as_slice())?;
    let slot = slot_for(defs, Kind::Pattern, name)?;
    pattern_in(slot, name, pattern)
}

/// The definition of a pattern with each flag turned, and the slot for it.
pub fn turned_pattern(
    defs: &Defs,
    name: &Name,
    pattern: &Name,
) -> Result<(u16, Option<Def>), Trouble>
    requires form { HasForm (NotOp name.now pattern.now) }
    ensures fits { IfOk result (λ change. FitsSlot Patterns change.0 change.1 defs.now.definitions) }
    ensures decision { (count : ℕ)
        → IsDecision Patterns (NotOp name.now pattern.now) result defs.now.definitions count }
{
    let old = pattern_named(defs, pattern)?;
    let slot = slot_for(defs, Kind::Pattern, name)?;
    let turned = old.not_op()?;
    pattern_in(slot, name, turned)
}

/// The definition of two patterns joined, and the slot for it.
pub fn joined_pattern(
    defs: &Defs,
    junction: Junction,
    name: &Name,
    first: &Name,
    second: &Name,
) -> Result<(u16, Option<Def>), Trouble>
    requires form { HasForm (join_of_patterns junction name.now first.now second.now) }
    ensures fits { IfOk result (λ change. FitsSlot Patterns change.0 change.1 defs.now.definitions) }
    ensures decision { (count : ℕ)
        → IsDecision Patterns
        (join_of_patterns junction name.now first.now second.now) result defs.now.definitions count }
{
    let a = pattern_named(defs, first)?;
    let b = pattern_named(defs, second)?;
    let slot = slot_for(defs, Kind::Pattern, name)?;
    let joined = a.join_shifted(junction, 0, b, 0)?;
    pattern_in(slot, name, joined)
}

/// The pattern that has this name.
pub fn pattern_named<'a>(defs: &'a Defs, name: &Name) -> Result<&'a Pattern, Trouble>
    ensures { (count : ℕ) (l : Layout) → IsDefinedBy defs.now.definitions count l
        → IsTried result (wanted name.now (catalogue_of l).patterns) (λ found pattern. found.now ≡ pattern) }
{
    let slot = slot_named(defs, Kind::Pattern, name)?;
    Ok(pattern_at(defs, slot))
}

/// The pattern in a slot.
pub(crate) fn pattern_at(defs: &Defs, slot: u16) -> &Pattern
    requires within { slot < pattern_slots }
    requires filled { IsSome (at_slot slot defs.now.definitions.patterns) }
    ensures { option_map (λ p. p.pattern) (at_slot slot defs.now.definitions.patterns) ≡ Some result.now }
{
    match defs.get(Kind::Pattern, slot) {
        Some(Def::Pattern { pattern, .. }) => pattern,
        _ => unreachable!(),
    }
}

// A pattern goes under a new name into the slot for it.
fn pattern_in(slot: u16, name: &Name, pattern: Pattern) -> Result<(u16, Option<Def>), Trouble>
    requires { IsTrue (is_name name.now) }
    ensures fits { (d : Definitions) → IsFreeSlot Patterns slot name.now d
        → IfOk result (λ change. FitsSlot Patterns change.0 change.1 d) }
    ensures made { (l : Layout) → IsSound l → AreFilled l → IsFreeSlot Patterns slot name.now l.definitions
        → IsMade Patterns name.now pattern l result }
{
    // What each pattern keeps: merged runs within the limits.
    let _length = pattern.length();
    let copied = name.copy()?;
    Ok((
        slot,
        Some(Def::Pattern {
            name: copied,
            pattern,
        }),
    ))
}
