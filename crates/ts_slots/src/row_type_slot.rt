// The slot of a row type: a whole page.
ghost use Rattle.std.specs.Prelude.{◌≡◌, ◌*◌, ◌≤◌, ◌∷◌, ◌++◌, [], ℕ, List, Some, true, IsTrue, IfOk, OnOk, IfSome};
ghost use Rattle.std.specs.Prelude.{length};
ghost use Rattle.ts_page.specs.Pages.{page_size};
ghost use Rattle.std.specs.List.{list_all};
ghost use Rattle.ts_row.specs.Row.{is_kind};
ghost use Rattle.ts_base.specs.Name.{is_name};
ghost use Rattle.ts_row.specs.declared.kind.ColumnKind.{ColumnKind};
ghost use Rattle.ts_row.specs.declared.kind.Column.{Column};
ghost use Rattle.ts_model.specs.declared.def.Def.{Def};
ghost use Rattle.ts_model.specs.Definitions.{kind_of};
ghost use Rattle.ts_layout.specs.Slot.{padded, name_bytes, kind_bytes, column_bytes, columns_bytes, row_type_bytes};
ghost use Rattle.ts_layout.specs.Slot.{def_bytes};
ghost use Rattle.ts_layout.specs.Meaning.{IsDef};

use crate::format::is_of_format;
use crate::pad::{pad, read_name, write_name};
use std::alloc::{AllocError, Global};
use ts_base::{Name, Trouble};
use ts_model::{Def, Kind};
use ts_row::{Column, ColumnKind, RowType};

/// The bytes of a column in the slot of its row type.
const COLUMN: usize = 36;

/// The most value columns of a row type.
const COLUMNS: usize = 32;

/// Writes a row type over its page.
pub(crate) fn write_row_type(name: &Name, kind: &RowType, page: &mut [u8])
    requires { length page.old ≡ page_size }
    ensures { page.new ≡ row_type_bytes name.now kind.now }
{
    page[0] = 1;
    write_named(name, kind, &mut page[1..]);
}

// Writes the name and what follows it.
fn write_named(name: &Name, kind: &RowType, into: &mut [u8])
    requires { length into.old ≡ 4095 }
    ensures { into.new ≡ name_bytes name.now ++ (name_bytes kind.now.stamp
        ++ (length kind.now.columns ∷ padded 4028 (columns_bytes kind.now.columns))) }
{
    write_name(name, &mut into[..33]);
    write_heading(kind, &mut into[33..]);
}

// Writes the name of the stamp and what follows it.
fn write_heading(kind: &RowType, into: &mut [u8])
    requires { length into.old ≡ 4062 }
    ensures { into.new ≡ name_bytes kind.now.stamp
        ++ (length kind.now.columns ∷ padded 4028 (columns_bytes kind.now.columns)) }
{
    write_name(kind.stamp(), &mut into[..33]);
    write_counted(kind.columns(), &mut into[33..]);
}

// Writes the number of the columns and what follows it.
fn write_counted(columns: &[Column], into: &mut [u8])
    requires few { length columns.now ≤ 32 }
    requires kinds { IsTrue (list_all (λ c. is_kind c.kind) columns.now) }
    requires room { length into.old ≡ 4029 }
    ensures { into.new ≡ length columns.now ∷ padded 4028 (columns_bytes columns.now) }
{
    into[0] = columns.len() as u8;
    write_columns(columns, &mut into[1..]);
}

// Writes columns, and zeros behind them.
fn write_columns(columns: &[Column], into: &mut [u8])
    requires kinds { IsTrue (list_all (λ c. is_kind c.kind) columns.now) }
    requires room { 36 * length columns.now ≤ length into.old }
    ensures { into.new ≡ padded (length into.old) (columns_bytes columns.now) }
{
    let Some((column, columns)) = columns.split_first() else {
        pad(&[], into);
        return;
    };
    write_column(column, &mut into[..COLUMN]);
    write_columns(columns, &mut into[COLUMN..]);
}

fn write_column(column: &Column, into: &mut [u8])
    requires kind { IsTrue (is_kind column.now.kind) }
    requires room { length into.old ≡ 36 }
    ensures { into.new ≡ column_bytes column.now }
{
    into[..3].copy_from_slice(&kind_bytes(column.kind));
    write_name(&column.name, &mut into[3..]);
}

fn kind_bytes(kind: ColumnKind) -> [u8; 3]
    requires { IsTrue (is_kind kind) }
    ensures { result ≡ kind_bytes kind }
{
    match kind {
        ColumnKind::SmallInt => [1, 0, 0],
        ColumnKind::Integer => [2, 0, 0],
        ColumnKind::BigInt => [3, 0, 0],
        ColumnKind::Decimal { digits, scale } => [4, digits as u8, scale as u8],
        ColumnKind::VarChar { length } => [5, length as u8, 0],
    }
}

/// The one row type of the format whose page this may be.
pub(crate) fn parse_row_type(
    alloc: Global,
    format: u8,
    page: &[u8],
) -> Result<Option<Def>, AllocError>
    requires { length page.now ≡ page_size }
    ensures rules { IfOk result (λ found. IfSome found (λ def. (kind_of def ≡ Kind.RowType) × IsDef format def)) }
    ensures found { IfOk result (λ found. (def : Def) → kind_of def ≡ Kind.RowType → IsDef format def
        → page.now ≡ def_bytes def
        → found ≡ Some def) }
{
    let count = page[67] as usize;
    if count > COLUMNS {
        return Ok(None);
    }
    let Some(name) = read_name(alloc, &page[1..34])? else {
        return Ok(None);
    };
    let Some(stamp) = read_name(alloc, &page[34..67])? else {
        return Ok(None);
    };
    let mut columns = Vec::with_capacity(alloc, count)?;
    if !parse_columns(alloc, count, &page[68..], &mut columns)? {
        return Ok(None);
    }
    match RowType::make(alloc, stamp, columns) {
        Ok(kind) => {
            if !is_of_format(format, &kind) {
                return Ok(None);
            }
            Ok(Some(Def::RowType { name, kind }))
        }
        Err(Trouble::Refused(_)) => Ok(None),
        Err(Trouble::Memory(error)) => Err(error),
    }
}

// Puts the columns that bytes may begin with, so many, to the end of a list.
fn parse_columns(
    alloc: Global,
    count: usize,
    bytes: &[u8],
    columns: &mut Vec<Column>,
) -> Result<bool, AllocError>
    requires { 36 * count ≤ length bytes.now }
    ensures names { OnOk result (IsTrue (list_all (λ c. is_name c.name) columns.old.items)
        → IsTrue (list_all (λ c. is_name c.name) columns.new.items)) }
    ensures found { IfOk result (λ found. (cs : List Column) (rest : List ℕ) → length cs ≡ count
        → IsTrue (list_all (λ c. is_name c.name) cs) → bytes.now ≡ columns_bytes cs ++ rest
        → (found ≡ true) × (columns.new.items ≡ columns.old.items ++ cs)) }
{
    if count == 0 {
        return Ok(true);
    }
    let (first, rest) = bytes.split_at(COLUMN);
    let Some(column) = parse_column(alloc, first)? else {
        return Ok(false);
    };
    columns.push(column)?;
    parse_columns(alloc, count - 1, rest, columns)
}

// The one column whose 36 bytes these may be.
fn parse_column(alloc: Global, bytes: &[u8]) -> Result<Option<Column>, AllocError>
    requires { length bytes.now ≡ 36 }
    ensures name { IfOk result (λ found. IfSome found (λ c. IsTrue (is_name c.name))) }
    ensures found { IfOk result (λ found. (c : Column) → IsTrue (is_name c.name) → bytes.now ≡ column_bytes c
        → found ≡ Some c) }
{
    let Some(kind) = parse_kind(bytes[0], bytes[1], bytes[2]) else {
        return Ok(None);
    };
    let Some(name) = read_name(alloc, &bytes[3..])? else {
        return Ok(None);
    };
    Ok(Some(Column { name, kind }))
}

// The one type of a column whose bytes these may be.
fn parse_kind(code: u8, first: u8, second: u8) -> Option<ColumnKind>
    ensures { (kind : ColumnKind) → kind_bytes kind ≡ code ∷ first ∷ second ∷ [] → result ≡ Some kind }
{
    match code {
        1 => Some(ColumnKind::SmallInt),
        2 => Some(ColumnKind::Integer),
        3 => Some(ColumnKind::BigInt),
        4 => Some(ColumnKind::Decimal {
            digits: first as u16,
            scale: second as u16,
        }),
        5 => Some(ColumnKind::VarChar {
            length: first as u16,
        }),
        _ => None,
    }
}
