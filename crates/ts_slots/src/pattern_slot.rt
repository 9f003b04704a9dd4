// The slot of a pattern: a whole page.
ghost use Rattle.std.specs.Prelude.{◌≡◌, ◌++◌, ℕ, Some, IfOk, IfSome, length};
ghost use Rattle.ts_page.specs.Pages.{page_size};
ghost use Rattle.ts_model.specs.declared.def.Def.{Def};
ghost use Rattle.ts_model.specs.Definitions.{kind_of};
ghost use Rattle.ts_layout.specs.Slot.{padded, name_bytes, plan_bytes, pattern_bytes, def_bytes};
ghost use Rattle.ts_layout.specs.Meaning.{IsDef};

use crate::pad::{read_name, write_name};
use crate::plan::{parse_plan, write_plan};
use std::alloc::{AllocError, Global};
use ts_base::Name;
use ts_model::{Def, Kind};
use ts_pattern::Pattern;

/// Writes a pattern over its page.
pub(crate) fn write_pattern(name: &Name, pattern: &Pattern, page: &mut [u8])
    requires { length page.old ≡ page_size }
    ensures { page.new ≡ pattern_bytes name.now pattern.now }
{
    page[0] = 1;
    write_named(name, pattern, &mut page[1..]);
}

// Writes the name and what follows it.
fn write_named(name: &Name, pattern: &Pattern, into: &mut [u8])
    requires { length into.old ≡ 4095 }
    ensures { into.new ≡ name_bytes name.now ++ padded 4062 (plan_bytes pattern.now) }
{
    write_name(name, &mut into[..33]);
    write_plan(pattern, &mut into[33..]);
}

/// The one pattern whose page this may be, in every format.
pub(crate) fn parse_pattern(alloc: Global, page: &[u8]) -> Result<Option<Def>, AllocError>
    requires { length page.now ≡ page_size }
    ensures rules { IfOk result (λ found. IfSome found (λ def. (kind_of def ≡ Kind.Pattern)
        × ((format : ℕ) → IsDef format def))) }
    ensures found { IfOk result (λ found. (format : ℕ) (def : Def) → kind_of def ≡ Kind.Pattern → IsDef format def →
        page.now ≡ def_bytes def → found ≡ Some def) }
{
    let Some(name) = read_name(alloc, &page[1..34])? else {
        return Ok(None);
    };
    let Some(pattern) = parse_plan(alloc, &page[34..])? else {
        return Ok(None);
    };
    Ok(Some(Def::Pattern { name, pattern }))
}
