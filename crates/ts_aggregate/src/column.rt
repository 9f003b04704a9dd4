// A tally takes the values of a column.
ghost use Rattle.std.specs.Prelude.{◌≡◌, ◌+◌, ◌*◌, ◌^◌, ◌≤◌, IfOk, OnOk, IsTrue, IsSome, true, false, ℤ, List};
ghost use Rattle.std.specs.Prelude.{unsigned_abs, fold, map, length};
ghost use Rattle.std.specs.List.{list_all};
ghost use Rattle.ts_row.specs.declared.value.Value.TheVariants.{Null, Number, Text};
ghost use Rattle.ts_row.specs.Row.{column_width};
ghost use Rattle.ts_expr.specs.Aggregates.{is_text_kind, earlier, later};
ghost use Rattle.ts_expr.specs.Running.{count_of, with_value, with_sums};
ghost use Rattle.ts_aggregate.specs.Column;
ghost use Rattle.ts_aggregate.specs.Column.{found, AreWhole, read_values, read_numbers, read_texts, is_small};
ghost use Rattle.ts_aggregate.specs.Totals.{AreKnown, AreTotals};
ghost use Rattle.ts_aggregate.specs.Totals as ThatTotals;

use crate::cells::Cells;
use crate::numbers::number;
use crate::texts::{best_text, text_of};
use crate::totals::{MOST_FOLDED, Sought, Totals, count_values, find_totals_of};
use std::alloc::{AllocError, Global};
use ts_base::Bytes;
use ts_expr::Tally;
use ts_row::{ColumnKind, Value};

/// Takes the values of a column, as long as there are no more than 2^32 that are counted. Where its numbers were looked
/// at, what was found out of them is told; the least or the greatest is sought if it is wanted, or where it is needed.
pub(crate) fn take_column(
    alloc: Global,
    tally: &mut Tally,
    cells: Cells<'_>,
    kind: ColumnKind,
    wanted: Sought,
    totals: &mut Totals,
) -> Result<bool, AllocError>
    requires count { count_of tally.old ≤ 2 ^ 32 }
    requires few { cells.left ≤ 4064 }
    requires whole { AreWhole cells }
    requires width { cells.position.width + 1 ≡ column_width kind }
    ensures few { count_of tally.new ≤ 2 ^ 32 }
    ensures value { OnOk result (IsTrue (list_all is_small (read_numbers kind cells.entry))
        → count_of tally.old + length (found cells.entry) ≤ 2 ^ 32
        → tally.new ≡ fold with_value tally.old (read_values kind cells.entry)) }
    ensures known { IfOk result (λ told. IsTrue told → AreKnown (read_numbers kind cells.entry) totals.new) }
    ensures numbers { IfOk result (λ told. IsTrue told → is_text_kind kind ≡ false) }
    ensures same { IfOk result (λ told. told ≡ false → totals.new ≡ totals.old) }
{
    if let ColumnKind::VarChar { .. } = kind {
        take_texts(alloc, tally, cells, kind)?;
        return Ok(false);
    }
    match tally {
        Tally::First(kept) => {
            keep_first(alloc, kept, cells, kind)?;
            Ok(false)
        }
        Tally::Last(kept) => {
            keep_last(alloc, kept, cells, kind)?;
            Ok(false)
        }
        _ => {
            find_totals(needed_of(tally), cells, kind, wanted, totals);
            take_totals(tally, totals);
            Ok(true)
        }
    }
}

// Takes the values of a column of texts. It stands by itself, as do the first and the last value, so that what they need
// isn't made where numbers are counted.
#[inline(never)]
fn take_texts(
    alloc: Global,
    tally: &mut Tally,
    cells: Cells<'_>,
    kind: ColumnKind,
) -> Result<(), AllocError>
    requires texts { is_text_kind kind ≡ true }
    requires few { count_of tally.old ≤ 2 ^ 32 }
    requires whole { AreWhole cells }
    requires width { cells.position.width + 1 ≡ column_width kind }
    ensures few { count_of tally.new ≤ 2 ^ 32 }
    ensures value { OnOk result (count_of tally.old + length (found cells.entry) ≤ 2 ^ 32
        → tally.new ≡ fold with_value tally.old (read_values kind cells.entry)) }
{
    match tally {
        Tally::Count(_) => add(tally, count_values(cells), 0),
        Tally::Sum(_) => add(tally, count_values(cells), 0),
        Tally::Avg(_) => add(tally, count_values(cells), 0),
        Tally::Min(kept) => keep_best_text(alloc, kept, cells, false)?,
        Tally::Max(kept) => keep_best_text(alloc, kept, cells, true)?,
        Tally::First(kept) => keep_first(alloc, kept, cells, kind)?,
        Tally::Last(kept) => keep_last(alloc, kept, cells, kind)?,
    }
    Ok(())
}

// What a tally needs of the least and the greatest.
fn needed_of(tally: &Tally) -> Sought
    ensures { result ≡ ThatTotals.needed_of tally.now }
{
    Sought {
        least: matches!(tally, Tally::Min(_)),
        greatest: matches!(tally, Tally::Max(_)),
    }
}

// Looks at the numbers of a column.
fn find_totals(
    needed: Sought,
    cells: Cells<'_>,
    kind: ColumnKind,
    wanted: Sought,
    totals: &mut Totals,
)
    requires few { cells.left ≤ 4064 }
    requires whole { AreWhole cells }
    requires width { cells.position.width + 1 ≡ column_width kind }
    requires numbers { is_text_kind kind ≡ false }
    ensures known { AreKnown (read_numbers kind cells.entry) totals.new }
    ensures least { IsTrue needed.least → IsSome totals.new.least }
    ensures greatest { IsTrue needed.greatest → IsSome totals.new.greatest }
{
    let sought = Sought {
        least: needed.least || wanted.least,
        greatest: needed.greatest || wanted.greatest,
    };
    find_totals_of(cells, kind, sought, totals);
}

/// Whether totals are enough for a tally.
#[inline(always)]
pub(crate) fn is_told(tally: &Tally, totals: &Totals) -> bool
    ensures { result ≡ ThatTotals.is_told tally.now totals.now }
{
    match tally {
        Tally::Count(_) => true,
        Tally::Sum(_) => true,
        Tally::Avg(_) => true,
        Tally::Min(_) => totals.least.is_some(),
        Tally::Max(_) => totals.greatest.is_some(),
        Tally::First(_) => false,
        Tally::Last(_) => false,
    }
}

/// Takes numbers of which this is known, and enough.
#[inline(always)]
pub(crate) fn take_totals(tally: &mut Tally, totals: &Totals)
    requires count { count_of tally.old ≤ 2 ^ 32 }
    requires digits { unsigned_abs totals.now.sum ≤ totals.now.count * 10 ^ 28 }
    requires told { IsTrue (ThatTotals.is_told tally.old totals.now) }
    ensures few { count_of tally.new ≤ 2 ^ 32 }
    ensures value { (zs : List ℤ) → AreTotals zs totals.now → count_of tally.old + length zs ≤ 2 ^ 32
        → tally.new ≡ fold with_value tally.old (map (λ z. Number z) zs) }
{
    match tally {
        Tally::Count(_) => add(tally, totals.count, totals.sum),
        Tally::Sum(_) => add(tally, totals.count, totals.sum),
        Tally::Avg(_) => add(tally, totals.count, totals.sum),
        Tally::Min(kept) => keep_least(kept, totals),
        Tally::Max(kept) => keep_greatest(kept, totals),
        _ => {}
    }
}

// Takes so many values with this sum, unless they would be too many.
fn add(tally: &mut Tally, count: u64, sum: i128)
    requires few { count_of tally.old ≤ 2 ^ 32 }
    requires digits { unsigned_abs sum ≤ count * 10 ^ 28 }
    ensures few { count_of tally.new ≤ 2 ^ 32 }
    ensures value { count_of tally.old + count ≤ 2 ^ 32 → tally.new ≡ with_sums tally.old count sum }
{
    if count <= MOST_FOLDED - tally.count() {
        tally.add(count, sum);
    }
}

// Keeps the least of a value and of numbers of which this is known. It stands by itself, as does the greatest, so that
// neither is read where numbers are counted.
#[inline(never)]
fn keep_least(kept: &mut Value, totals: &Totals)
    requires { IsSome totals.now.least }
    ensures { (zs : List ℤ) → AreTotals zs totals.now
        → kept.new ≡ fold (Column.better false) kept.old (map (λ z. Number z) zs) }
{
    keep_best(kept, totals, false);
}

#[inline(never)]
fn keep_greatest(kept: &mut Value, totals: &Totals)
    requires { IsSome totals.now.greatest }
    ensures { (zs : List ℤ) → AreTotals zs totals.now
        → kept.new ≡ fold (Column.better true) kept.old (map (λ z. Number z) zs) }
{
    keep_best(kept, totals, true);
}

// The one or the other.
#[inline(always)]
fn keep_best(kept: &mut Value, totals: &Totals, most: bool)
    requires { IsSome (ThatTotals.best_of most totals.now) }
    ensures { (zs : List ℤ) → AreTotals zs totals.now
        → kept.new ≡ fold (Column.better most) kept.old (map (λ z. Number z) zs) }
{
    let Some(best) = best_of(totals, most) else {
        return;
    };
    if totals.count == 0 {
        return;
    }
    keep_number(kept, most, best);
}

fn best_of(totals: &Totals, most: bool) -> Option<i128>
    ensures { result ≡ ThatTotals.best_of most totals.now }
{
    if most { totals.greatest } else { totals.least }
}

// Keeps the lesser or the greater of a value, if there is one, and a number.
fn keep_number(kept: &mut Value, most: bool, number: i128)
    ensures { kept.new ≡ Column.better most kept.old (Number number) }
{
    match kept {
        Value::Null => *kept = Value::Number(number),
        Value::Number(old) => *old = better(most, *old, number),
        Value::Text(_) => {}
    }
}

// The lesser or the greater of two numbers.
fn better(most: bool, kept: i128, number: i128) -> i128
    ensures { Number result ≡ Column.better most (Number kept) (Number number) }
{
    if most {
        kept.max(number)
    } else {
        kept.min(number)
    }
}

// The same of texts.
fn keep_best_text(
    alloc: Global,
    kept: &mut Value,
    cells: Cells<'_>,
    most: bool,
) -> Result<(), AllocError>
    requires { AreWhole cells }
    ensures { OnOk result (kept.new ≡ fold (Column.better most) kept.old (map (λ t. Text t) (read_texts cells.entry))) }
{
    *kept = best_text_value(alloc, kept, cells, most)?;
    Ok(())
}

// The text that is to be kept, copied once.
#[tactic(auto, using(crate::proofs::ColumnLemmas::number_stays))]
fn best_text_value(
    alloc: Global,
    kept: &Value,
    cells: Cells<'_>,
    most: bool,
) -> Result<Value, AllocError>
    requires { AreWhole cells }
    ensures { IfOk result (λ best. best
        ≡ fold (Column.better most) kept.now (map (λ t. Text t) (read_texts cells.entry))) }
{
    let start = match kept {
        Value::Null => None,
        Value::Number(number) => return Ok(Value::Number(*number)),
        Value::Text(text) => Some(text.as_slice()),
    };
    let near = Cells {
        position: cells.position,
        left: cells.left,
        bytes: cells.bytes,
    };
    match best_text(near, start, most) {
        None => Ok(Value::Null),
        Some(best) => Ok(Value::Text(Bytes::from_slice(alloc, best)?)),
    }
}

// Keeps the value that is kept, or else the first of a column.
#[inline(never)]
#[tactic(auto, using(crate::proofs::ColumnLemmas::first_stays))]
fn keep_first(
    alloc: Global,
    kept: &mut Value,
    cells: Cells<'_>,
    kind: ColumnKind,
) -> Result<(), AllocError>
    requires whole { AreWhole cells }
    requires width { cells.position.width + 1 ≡ column_width kind }
    ensures { OnOk result (kept.new ≡ fold earlier kept.old (read_values kind cells.entry)) }
{
    match kept {
        Value::Null => set_first(alloc, kept, cells, kind),
        _ => Ok(()),
    }
}

// Keeps the first value of a column, where it has one.
#[tactic(auto, using(crate::proofs::ColumnLemmas::first_is))]
fn set_first(
    alloc: Global,
    kept: &mut Value,
    cells: Cells<'_>,
    kind: ColumnKind,
) -> Result<(), AllocError>
    requires none { kept.old ≡ Null }
    requires whole { AreWhole cells }
    requires width { cells.position.width + 1 ≡ column_width kind }
    ensures { OnOk result (kept.new ≡ fold earlier Null (read_values kind cells.entry)) }
{
    if let Some((bytes, _)) = cells.next() {
        *kept = read_value(alloc, kind, bytes)?;
    }
    Ok(())
}

// Keeps the last of a column, where it has one.
#[inline(never)]
fn keep_last(
    alloc: Global,
    kept: &mut Value,
    cells: Cells<'_>,
    kind: ColumnKind,
) -> Result<(), AllocError>
    requires whole { AreWhole cells }
    requires width { cells.position.width + 1 ≡ column_width kind }
    ensures { OnOk result (kept.new ≡ fold later kept.old (read_values kind cells.entry)) }
{
    if let Some(bytes) = cells.last() {
        *kept = read_value(alloc, kind, bytes)?;
    }
    Ok(())
}

// The value that the bytes of a column are.
fn read_value(alloc: Global, kind: ColumnKind, bytes: &[u8]) -> Result<Value, AllocError>
    requires { length bytes.now + 1 ≡ column_width kind }
    ensures { IfOk result (λ value. value ≡ Column.read_value kind bytes.now) }
{
    match kind {
        ColumnKind::VarChar { .. } => { Ok(Value::Text(Bytes::from_slice(alloc, text_of(bytes))?)) }
        _ => Ok(Value::Number(number(kind, bytes))),
    }
}
