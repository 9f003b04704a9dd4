// The numbers of a column in cells: how many there are, their sum, the least and the greatest of them.
ghost use Rattle.std.specs.Prelude.{◌≡◌, ◌+◌, ◌*◌, ◌^◌, ◌≤◌, ◌<◌, ◌+ℤ◌, unsigned_abs, if◌then◌else◌, true, false};
ghost use Rattle.std.specs.Prelude.{IsTrue, IsSome, Some, None, length};
ghost use Rattle.std.specs.Int.{int_min, int_max};
ghost use Rattle.ts_row.specs.Row.{column_width};
ghost use Rattle.ts_expr.specs.Aggregates.{is_text_kind};
ghost use Rattle.ts_aggregate.specs.Column.{found, AreWhole, read_numbers};
ghost use Rattle.ts_aggregate.specs.Totals.{bytes_in, sized_numbers, AreKnown};
ghost use Rattle.ts_aggregate.specs.Totals as ThatTotals;

use crate::cells::{Cells, bytes_of, has_value_at};
use crate::numbers::{NumberSize, number_of_size, short_number_of_size, size_of};
use ts_row::ColumnKind;

/// The most values that are counted or summed up.
pub(crate) const MOST_FOLDED: u64 = 4_294_967_296;

/// A number of 29 digits.
const TOO_LONG: u128 = 10_000_000_000_000_000_000_000_000_000;

/// What is known of the numbers of a column in some cells.
#[derive(Clone, Copy)]
pub(crate) struct Totals {
    /// How many there are.
    pub count: u64,
    pub sum: i128,
    /// None where it wasn't sought.
    pub least: Option<i128>,
    /// None where it wasn't sought.
    pub greatest: Option<i128>,
}

/// Which of the least and the greatest of some numbers are sought.
#[derive(Clone, Copy)]
pub(crate) struct Sought {
    pub least: bool,
    pub greatest: bool,
}

// What is known of the numbers so far. Of none the least is the greatest of all that there may be.
#[derive(Clone, Copy)]
struct Gathered {
    count: u64,
    sum: i128,
    least: i128,
    greatest: i128,
}

// The same of numbers of at most four bytes, but for how many they are.
#[derive(Clone, Copy)]
struct GatheredShort {
    sum: i64,
    least: i64,
    greatest: i64,
}

/// How many values there are.
pub(crate) fn count_values(cells: Cells<'_>) -> u64
    requires { AreWhole cells }
    ensures { result ≡ length (found cells.entry) }
{
    let mut rest = cells;
    let mut count = 0;
    while let Some((_, more)) = rest.next() {
        count += 1;
        rest = more;
    }
    count
}

/// Finds out what is known of the numbers of a column, with the least or the greatest where it is sought. There is a loop
/// of its own for each size and for what is sought, neither of which is asked for at each number.
pub(crate) fn find_totals_of(
    cells: Cells<'_>,
    kind: ColumnKind,
    sought: Sought,
    totals: &mut Totals,
)
    requires few { cells.left ≤ 4064 }
    requires whole { AreWhole cells }
    requires width { cells.position.width + 1 ≡ column_width kind }
    requires numbers { is_text_kind kind ≡ false }
    ensures known { AreKnown (read_numbers kind cells.entry) totals.new }
    ensures least { IsTrue sought.least → IsSome totals.new.least }
    ensures greatest { IsTrue sought.greatest → IsSome totals.new.greatest }
{
    find_sized_totals(cells, size_of(kind), sought, totals);
}

// The same of numbers of a size. It stands by itself, so that its loops have all registers.
#[inline(never)]
fn find_sized_totals(cells: Cells<'_>, size: NumberSize, sought: Sought, totals: &mut Totals)
    requires few { cells.left ≤ 4064 }
    requires whole { AreWhole cells }
    requires width { cells.position.width ≡ bytes_in size }
    ensures known { AreKnown (sized_numbers size cells.entry) totals.new }
    ensures least { IsTrue sought.least → IsSome totals.new.least }
    ensures greatest { IsTrue sought.greatest → IsSome totals.new.greatest }
{
    if cells.position.place == cells.position.front {
        *totals = totals_if_least(cells, size, sought, true);
        return;
    }
    *totals = totals_if_least(cells, size, sought, false);
}

// The same by loops for a column that is the first of its row, or by others for one that isn't. Where the least is
// sought, it is by those that seek it.
#[inline(always)]
fn totals_if_least(cells: Cells<'_>, size: NumberSize, sought: Sought, is_first: bool) -> Totals
    requires few { cells.left ≤ 4064 }
    requires whole { AreWhole cells }
    requires width { cells.position.width ≡ bytes_in size }
    requires first { IsTrue is_first → cells.position.place ≡ cells.position.front }
    ensures known { AreKnown (sized_numbers size cells.entry) result }
    ensures least { IsTrue sought.least → IsSome result.least }
    ensures greatest { IsTrue sought.greatest → IsSome result.greatest }
{
    if sought.least {
        totals_if_greatest(cells, size, true, sought.greatest, is_first)
    } else {
        totals_if_greatest(cells, size, false, sought.greatest, is_first)
    }
}

// And where the greatest is.
#[inline(always)]
fn totals_if_greatest(
    cells: Cells<'_>,
    size: NumberSize,
    least: bool,
    greatest: bool,
    is_first: bool,
) -> Totals
    requires few { cells.left ≤ 4064 }
    requires whole { AreWhole cells }
    requires width { cells.position.width ≡ bytes_in size }
    requires first { IsTrue is_first → cells.position.place ≡ cells.position.front }
    ensures known { AreKnown (sized_numbers size cells.entry) result }
    ensures least { IsTrue least → IsSome result.least }
    ensures greatest { IsTrue greatest → IsSome result.greatest }
{
    if greatest {
        totals_by_size(
            cells,
            size,
            Sought {
                least,
                greatest: true,
            },
            is_first,
        )
    } else {
        totals_by_size(
            cells,
            size,
            Sought {
                least,
                greatest: false,
            },
            is_first,
        )
    }
}

// The same by a loop for the size.
#[inline(always)]
fn totals_by_size(cells: Cells<'_>, size: NumberSize, sought: Sought, is_first: bool) -> Totals
    requires few { cells.left ≤ 4064 }
    requires whole { AreWhole cells }
    requires width { cells.position.width ≡ bytes_in size }
    requires first { IsTrue is_first → cells.position.place ≡ cells.position.front }
    ensures known { AreKnown (sized_numbers size cells.entry) result }
    ensures least { IsTrue sought.least → IsSome result.least }
    ensures greatest { IsTrue sought.greatest → IsSome result.greatest }
{
    match size {
        NumberSize::Two => short_totals(cells, NumberSize::Two, sought, is_first),
        NumberSize::Four => short_totals(cells, NumberSize::Four, sought, is_first),
        NumberSize::Eight => long_totals(cells, NumberSize::Eight, sought, is_first),
        NumberSize::Sixteen => long_totals(cells, NumberSize::Sixteen, sought, is_first),
    }
}

// The same of numbers of at most four bytes, whose sum is one of 64 bits. Cells without one are counted, which are few.
#[inline(always)]
fn short_totals(cells: Cells<'_>, size: NumberSize, sought: Sought, is_first: bool) -> Totals
    requires few { cells.left ≤ 4064 }
    requires whole { AreWhole cells }
    requires width { cells.position.width ≡ bytes_in size }
    requires short { bytes_in size ≤ 4 }
    requires first { IsTrue is_first → cells.position.place ≡ cells.position.front }
    ensures known { AreKnown (sized_numbers size cells.entry) result }
    ensures least { IsTrue sought.least → IsSome result.least }
    ensures greatest { IsTrue sought.greatest → IsSome result.greatest }
{
    let position = cells.position;
    let mut left = cells.left;
    let mut bytes = cells.bytes;
    let mut missing = 0;
    let mut so_far = GatheredShort {
        sum: 0,
        least: i64::MAX,
        greatest: i64::MIN,
    };
    while left > 0 {
        let (cell, rest) = bytes.split_at(position.size);
        bytes = rest;
        left -= 1;
        if has_value_at(position, cell, is_first) {
            let number = short_number_of_size(size, bytes_of(position, cell));
            so_far = with_short_number(so_far, number, sought);
        } else {
            missing += 1;
        }
    }
    totals_gathered(widened((cells.left - missing) as u64, so_far), sought)
}

fn widened(count: u64, short: GatheredShort) -> Gathered
    ensures { result ≡ ThatTotals.gathered count short.sum short.least short.greatest }
{
    Gathered {
        count,
        sum: short.sum as i128,
        least: short.least as i128,
        greatest: short.greatest as i128,
    }
}

// With one number more.
#[inline(always)]
fn with_short_number(so_far: GatheredShort, number: i64, sought: Sought) -> GatheredShort
    requires room { unsigned_abs so_far.sum ≤ 4063 * 2 ^ 31 }
    requires short { unsigned_abs number ≤ 2 ^ 31 }
    ensures sum { result.sum ≡ so_far.sum +ℤ number }
    ensures least { IsTrue sought.least → result.least ≡ int_min so_far.least number }
    ensures greatest { IsTrue sought.greatest → result.greatest ≡ int_max so_far.greatest number }
{
    GatheredShort {
        sum: so_far.sum + number,
        least: if sought.least {
            so_far.least.min(number)
        } else {
            so_far.least
        },
        greatest: if sought.greatest {
            so_far.greatest.max(number)
        } else {
            so_far.greatest
        },
    }
}

// The same of numbers of more bytes.
#[inline(always)]
fn long_totals(cells: Cells<'_>, size: NumberSize, sought: Sought, is_first: bool) -> Totals
    requires few { cells.left ≤ 4064 }
    requires whole { AreWhole cells }
    requires width { cells.position.width ≡ bytes_in size }
    requires first { IsTrue is_first → cells.position.place ≡ cells.position.front }
    ensures known { AreKnown (sized_numbers size cells.entry) result }
    ensures least { IsTrue sought.least → IsSome result.least }
    ensures greatest { IsTrue sought.greatest → IsSome result.greatest }
{
    let position = cells.position;
    let mut left = cells.left;
    let mut bytes = cells.bytes;
    let mut so_far = Gathered {
        count: 0,
        sum: 0,
        least: i128::MAX,
        greatest: i128::MIN,
    };
    while left > 0 {
        let (cell, rest) = bytes.split_at(position.size);
        bytes = rest;
        left -= 1;
        if has_value_at(position, cell, is_first) {
            let number = number_of_size(size, bytes_of(position, cell));
            so_far = with_number(so_far, number, sought);
        }
    }
    totals_gathered(so_far, sought)
}

// With one number more. The sum of numbers that a column may hold doesn't wrap.
#[inline(always)]
fn with_number(so_far: Gathered, number: i128, sought: Sought) -> Gathered
    requires few { so_far.count < 4064 }
    ensures count { result.count ≡ so_far.count + 1 }
    ensures sum { unsigned_abs so_far.sum ≤ so_far.count * 10 ^ 28 → unsigned_abs number < 2 ^ 94
        → result.sum ≡ so_far.sum +ℤ number }
    ensures least { IsTrue sought.least → result.least ≡ int_min so_far.least number }
    ensures greatest { IsTrue sought.greatest → result.greatest ≡ int_max so_far.greatest number }
{
    Gathered {
        count: so_far.count + 1,
        sum: so_far.sum.wrapping_add(number),
        least: lesser_if(sought.least, so_far.least, number),
        greatest: greater_if(sought.greatest, so_far.greatest, number),
    }
}

#[inline(always)]
fn lesser_if(sought: bool, kept: i128, number: i128) -> i128
    ensures { IsTrue sought → result ≡ int_min kept number }
{
    if sought { kept.min(number) } else { kept }
}

#[inline(always)]
fn greater_if(sought: bool, kept: i128, number: i128) -> i128
    ensures { IsTrue sought → result ≡ int_max kept number }
{
    if sought { kept.max(number) } else { kept }
}

// What is known of all.
fn totals_gathered(all: Gathered, sought: Sought) -> Totals
    requires few { all.count ≤ 4064 }
    ensures count { result.count ≡ all.count }
    ensures digits { unsigned_abs result.sum ≤ result.count * 10 ^ 28 }
    ensures sum { unsigned_abs all.sum ≤ all.count * 10 ^ 28 → result.sum ≡ all.sum }
    ensures least { result.least ≡ (if sought.least then Some all.least else None) }
    ensures greatest { result.greatest ≡ (if sought.greatest then Some all.greatest else None) }
{
    Totals {
        count: all.count,
        sum: sum_of_so_many(all.count, all.sum),
        least: if_sought(sought.least, all.least),
        greatest: if_sought(sought.greatest, all.greatest),
    }
}

// A number where it was sought.
#[inline(always)]
fn if_sought(sought: bool, number: i128) -> Option<i128>
    ensures { result ≡ (if sought then Some number else None) }
{
    if sought { Some(number) } else { None }
}

// A sum that so many numbers of 28 digits may have, or else 0.
fn sum_of_so_many(count: u64, sum: i128) -> i128
    requires { count ≤ 4064 }
    ensures digits { unsigned_abs result ≤ count * 10 ^ 28 }
    ensures same { unsigned_abs sum ≤ count * 10 ^ 28 → result ≡ sum }
{
    if sum.unsigned_abs() <= count as u128 * TOO_LONG {
        sum
    } else {
        0
    }
}
