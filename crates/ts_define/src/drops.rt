// Definitions to which nothing refers are dropped, of each kind alike.
ghost use Rattle.std.specs.Prelude.{◌≡◌, ◌<◌, ℕ, true, false, Some, IfOk};
ghost use Rattle.ts_model.specs.declared.def.Def.{Def as TheDef};
ghost use Rattle.ts_model.specs.Definitions.{limit, kind_of, def_at, Refers, IsUsed, IsUsedBy};
ghost use Rattle.ts_layout.specs.Meaning.{Layout, catalogue_of};
ghost use Rattle.ts_answer.specs.Answer.{drop_definition};
ghost use Rattle.ts_answer.specs.Decided.{DefinesAs, FitsSlot};
ghost use Rattle.ts_model.specs.Catalogue.{HasNoPages};
ghost use Rattle.ts_answer.specs.Tried.{IsTried};
ghost use Rattle.ts_answer.specs.View.{IsDefinedBy};

use crate::slots::slot_named;
use ts_base::{Name, Refusal, Trouble};
use ts_model::{Def, Defs, Kind};

/// The slot of a name to which nothing refers, of a kind whose definitions have no pages.
pub fn drop_definition(defs: &Defs, kind: Kind, name: &Name) -> Result<(u16, Option<Def>), Trouble>
    requires { HasNoPages kind }
    ensures fits { IfOk result (λ change. FitsSlot kind change.0 change.1 defs.now.definitions) }
    ensures tried { (count : ℕ) (l : Layout) → IsDefinedBy defs.now.definitions count l
        → IsTried result (drop_definition kind name.now (catalogue_of l))
        (λ change answered. DefinesAs kind change.0 change.1 l answered) }
{
    let slot = slot_named(defs, kind, name)?;
    if has_user(defs, kind, slot) {
        return Err(Trouble::Refused(Refusal::InUse));
    }
    Ok((slot, None))
}

// Whether some definition refers to what stands in a slot of a kind.
fn has_user(defs: &Defs, kind: Kind, slot: u16) -> bool
    ensures some { result ≡ true → IsUsed kind slot defs.now.definitions }
    ensures none { result ≡ false → IsUsed kind slot defs.now.definitions → ⊥ }
{
    match user_kind(kind) {
        Some(users) => has_user_in(defs, users, kind, slot),
        None => false,
    }
}

// The kind whose definitions can refer to those of a kind; no others do.
fn user_kind(kind: Kind) -> Option<Kind>
    ensures { (def : TheDef) (slot : ℕ) → Refers def kind slot → result ≡ Some (kind_of def) }
{
    match kind {
        Kind::Pattern => Some(Kind::Calendar),
        Kind::RowType => Some(Kind::Container),
        Kind::Calendar | Kind::Container => Some(Kind::Series),
        Kind::Series => None,
    }
}

// Whether some definition of a kind of users does.
fn has_user_in(defs: &Defs, users: Kind, kind: Kind, slot: u16) -> bool
    ensures some { result ≡ true → IsUsedBy users kind slot defs.now.definitions }
    ensures none { result ≡ false → IsUsedBy users kind slot defs.now.definitions → ⊥ }
{
    for user in 0..users.limit() {
        if is_user(defs, users, user, kind, slot) {
            return true;
        }
    }
    false
}

// Whether a slot is filled with a definition that does.
fn is_user(defs: &Defs, users: Kind, user: u16, kind: Kind, slot: u16) -> bool
    requires { user < limit users }
    ensures some { result ≡ true → (def : TheDef) × (def_at users user defs.now.definitions ≡ Some def)
        × Refers def kind slot }
    ensures none { result ≡ false → (def : TheDef) → def_at users user defs.now.definitions ≡ Some def
        → Refers def kind slot → ⊥ }
{
    match defs.get(users, user) {
        Some(def) => refers(def, kind, slot),
        None => false,
    }
}

// Whether a definition does.
fn refers(def: &Def, kind: Kind, slot: u16) -> bool
    ensures some { result ≡ true → Refers def.now kind slot }
    ensures none { result ≡ false → Refers def.now kind slot → ⊥ }
{
    match def {
        Def::RowType { .. } | Def::Pattern { .. } => false,
        Def::Calendar { by, .. } => match by {
            Some(pattern) => is_slot(Kind::Pattern, *pattern as u16, kind, slot),
            None => false,
        },
        Def::Container { row_type, .. } => { is_slot(Kind::RowType, *row_type as u16, kind, slot) }
        Def::Series {
            container,
            regular,
            ..
        } => {
            is_slot(Kind::Container, *container as u16, kind, slot)
                || match regular {
                    Some((calendar, _)) => is_slot(Kind::Calendar, *calendar as u16, kind, slot),
                    None => false,
                }
        }
    }
}

// Whether two slots are one.
fn is_slot(kind: Kind, slot: u16, other: Kind, at: u16) -> bool
    ensures same { result ≡ true → (kind ≡ other) × (slot ≡ at) }
    ensures differs { result ≡ false → (kind ≡ other) × (slot ≡ at) → ⊥ }
{
    kind == other && slot == at
}
