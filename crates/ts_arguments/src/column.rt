// The columns of a row type: a name and a type each.
ghost use Rattle.std.specs.Prelude.{◌≡◌, Ok, IfOk, IfErr};
ghost use Rattle.ts_text.specs.Phrase.{repeated, onto};
ghost use Rattle.ts_arguments.specs.Arguments.{a_stamp_column, a_column, kind_behind};
ghost use Rattle.ts_text.specs.Misfit.{Refuses, RefusesExactly};

use crate::list::Columns;
use crate::phrase::{read_name, read_small, read_type, read_word};
use crate::word::TypeName;
use std::alloc::Global;
use ts_base::Name;
use ts_row::{Column, ColumnKind};
use ts_text::{Misfit, behind_sign, read_sign};

/// The name of the stamp's column.
#[tactic(auto, unfolding(crate::specs::Arguments::a_stamp_column))]
pub(crate) fn read_stamp_column(alloc: Global, bytes: &[u8]) -> Result<(Name, &[u8]), Misfit>
    ensures ok { IfOk result (λ found. a_stamp_column bytes.now ≡ Ok (found.0, found.1.now)) }
    ensures cause { IfErr result (λ misfit. Refuses misfit (a_stamp_column bytes.now)) }
{
    let (name, rest) = read_name(alloc, bytes)?;
    let rest = read_word(rest, b"datetime")?;
    Ok((name, rest))
}

/// A value column.
#[tactic(auto, unfolding(crate::specs::Arguments::a_column))]
pub(crate) fn read_column(alloc: Global, bytes: &[u8]) -> Result<(Column, &[u8]), Misfit>
    ensures ok { IfOk result (λ found. a_column bytes.now ≡ Ok (found.0, found.1.now)) }
    ensures cause { IfErr result (λ misfit. Refuses misfit (a_column bytes.now)) }
{
    let (name, rest) = read_name(alloc, bytes)?;
    let (type_name, rest) = read_type(rest)?;
    let (kind, rest) = read_kind(type_name, rest)?;
    Ok((Column { name, kind }, rest))
}

// The type of this name, with its numbers.
#[tactic(auto, unfolding(crate::specs::Arguments::kind_behind))]
fn read_kind(type_name: TypeName, bytes: &[u8]) -> Result<(ColumnKind, &[u8]), Misfit>
    ensures ok { IfOk result (λ found. kind_behind type_name bytes.now ≡ Ok (found.0, found.1.now)) }
    ensures cause { IfErr result (λ misfit. RefusesExactly misfit (kind_behind type_name bytes.now)) }
{
    match type_name {
        TypeName::SmallInt => Ok((ColumnKind::SmallInt, bytes)),
        TypeName::Integer => Ok((ColumnKind::Integer, bytes)),
        TypeName::BigInt => Ok((ColumnKind::BigInt, bytes)),
        TypeName::Decimal => read_decimal(bytes),
        TypeName::VarChar => read_varchar(bytes),
    }
}

#[tactic(auto, unfolding(crate::specs::Arguments::kind_behind))]
fn read_decimal(bytes: &[u8]) -> Result<(ColumnKind, &[u8]), Misfit>
    ensures ok { IfOk result (λ found. kind_behind TypeName.Decimal bytes.now ≡ Ok (found.0, found.1.now)) }
    ensures cause { IfErr result (λ misfit. RefusesExactly misfit (kind_behind TypeName.Decimal bytes.now)) }
{
    let (digits, rest) = read_small(read_sign(bytes, b'(')?)?;
    let (scale, rest) = read_small(read_sign(rest, b',')?)?;
    let rest = read_sign(rest, b')')?;
    Ok((ColumnKind::Decimal { digits, scale }, rest))
}

#[tactic(auto, unfolding(crate::specs::Arguments::kind_behind))]
fn read_varchar(bytes: &[u8]) -> Result<(ColumnKind, &[u8]), Misfit>
    ensures ok { IfOk result (λ found. kind_behind TypeName.VarChar bytes.now ≡ Ok (found.0, found.1.now)) }
    ensures cause { IfErr result (λ misfit. RefusesExactly misfit (kind_behind TypeName.VarChar bytes.now)) }
{
    let (length, rest) = read_small(read_sign(bytes, b'(')?)?;
    let rest = read_sign(rest, b')')?;
    Ok((ColumnKind::VarChar { length }, rest))
}

/// Further value columns, as many as commas stand there.
pub(crate) fn read_columns<'a>(
    alloc: Global,
    columns: &mut Columns,
    bytes: &'a [u8],
) -> Result<&'a [u8], Misfit>
    ensures ok { IfOk result (λ rest. onto columns.old (repeated a_column bytes.now) ≡ Ok (columns.new, rest.now)) }
    ensures cause { IfErr result (λ misfit. Refuses misfit (repeated a_column bytes.now)) }
{
    let mut rest = bytes;
    while let Some(behind) = behind_sign(rest, b',') {
        let (column, more) = read_column(alloc, behind)?;
        columns.push(column)?;
        rest = more;
    }
    Ok(rest)
}
