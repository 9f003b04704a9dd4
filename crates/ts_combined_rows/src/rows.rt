// What is said of series that are combined: their rows, each in a line.
ghost use Rattle.std.specs.Prelude.{◌≡◌, ◌++◌, ◌⊎◌, OnOk, map, length};
ghost use Rattle.std.specs.List.{flat_map};
ghost use Rattle.std.specs.Option.{option_copied};
ghost use Rattle.ts_combine.specs.Combine.{joined};
ghost use Rattle.ts_combine.specs.Series.{side_of, IsSeries, HasCalendar};
ghost use Rattle.ts_entry.specs.Entry.{elements_in};
ghost use Rattle.ts_combine.specs.Call.{AnswersRows, HaveNoGrid, joined_row, row_at};
ghost use Rattle.ts_combine.specs.Rows.{IsRefusedFor, IsTooLarge};
ghost use Rattle.ts_answer.specs.Reply.{element_line};
ghost use Rattle.ts_combined_rows.specs.Combining.{AllFit};

use std::alloc::{AllocError, Global};
use ts_base::{Reply, Stamp, Trouble};
use ts_combine::{Joined, Side, intersect, union};
use ts_pattern::Junction;
use ts_row::{Elem, Row, RowType};
use ts_say::{DayText, say_joined};

/// The most rows of a reply.
pub(crate) const MOST_ROWS: u64 = 1_000_000;

/// The rows of two series as one, from one stamp to another.
pub(crate) fn rows_of(
    alloc: Global,
    junction: Junction,
    first: &Side,
    second: &Side,
    from: Stamp,
    to: Stamp,
) -> Result<Vec<Joined>, Trouble>
    requires first { HasCalendar first.now }
    requires second { HasCalendar second.now }
    ensures rows { let a = side_of first.now in let b = side_of second.now in IsSeries a → IsSeries b
        → AnswersRows (joined_row a b) (joined junction a b from to) result }
    ensures cause { IsRefusedFor (λ why. HaveNoGrid first.now.shape.now second.now.shape.now why
        ⊎ IsTooLarge why) result }
{
    match junction {
        Junction::And => intersect(alloc, first, second, from, to),
        Junction::Or => union(alloc, first, second, from, to),
    }
}

/// Says the rows of two series as one.
pub(crate) fn say_rows(
    out: &mut Reply,
    first_kind: &RowType,
    second_kind: &RowType,
    first: &Side,
    second: &Side,
    rows: &[Joined],
) -> Result<(), AllocError>
    requires first { first.now.columns ≡ length first_kind.now.columns }
    requires second { second.now.columns ≡ length second_kind.now.columns }
    ensures { OnOk result (AllFit first_kind.now.columns (elements_in first.now.elems.now)
        → AllFit second_kind.now.columns (elements_in second.now.elems.now)
        → out.new ≡ out.old ++ flat_map (element_line (first_kind.now.columns ++ second_kind.now.columns))
        (map (joined_row (side_of first.now) (side_of second.now)) rows.now)) }
{
    let mut day = DayText::first();
    for row in rows {
        let one = row_at(first.elems, row.first);
        let other = row_at(second.elems, row.second);
        say_joined(
            out,
            &mut day,
            first_kind,
            second_kind,
            row.stamp,
            one,
            other,
        )?;
    }
    Ok(())
}

// The row of an element by its index, if there is an index.
fn row_at(elems: &[Elem], index: Option<usize>) -> Option<&Row>
    ensures { option_copied result ≡ row_at (elements_in elems.now) index }
{
    let elem = elems.get(index?)?;
    Some(&elem.row)
}
