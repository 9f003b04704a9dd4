// The routines that say a row for each element of a series: running sums and means of a column, and the values of
// expressions.
ghost use Rattle.std.specs.Prelude.{◌≡◌, ◌<◌, ◌^◌, ◌≤ℤ◌, pos, [], IsTrue, length};
ghost use Rattle.ts_command.specs.declared.command.Command.TheVariants.{TSRunningSum, TSRunningAvg, Apply};
ghost use Rattle.ts_running.specs.Places.{is_running};
ghost use Rattle.ts_answer.specs.View.{view, IsSeen};
ghost use Rattle.ts_answer.specs.CarriedOut.{ReadOut};
ghost use Rattle.ts_series_rows.specs.Running.{running_of};

use std::alloc::Global;
use ts_answer::Stop;
use ts_base::{Bytes, Key, Reply, Stamp};
use ts_expr::Function;
use ts_model::Defs;
use ts_page::{Page, Pages};
use ts_running::{ExprList, Running, bind_column, read_column};
use ts_running_rows::{applied_rows, running_rows};
use ts_say::{FoldedLines, say_count};
use ts_shelf::shelf_of;
use ts_space::Space;

/// Says the sum of a column in each element of a series from one stamp to another, both included, and those before it
/// there, `span` in all: a row for each, at its stamp, and how many they are. A text that names no column is refused
/// first, then a key that no series has, then a name that no column has, then a column of texts; TooLarge where the
/// rows are more than 1000000, and some lines stand in the reply by then. `page` is room to read one; the memory is for
/// the window and for the rows, one at a time.
pub fn running_sum<P: Pages>(
    alloc: Global,
    pages: &mut P,
    page: &mut Page,
    defs: &Defs,
    space: &Space,
    text: &Bytes,
    key: &Key,
    span: i64,
    from: Stamp,
    to: Stamp,
    out: &mut Reply,
) -> Result<(), Stop>
    requires seen { IsSeen P.tells (view defs.now.definitions space.now (P.contents pages.old)) }
    requires empty { out.old ≡ [] }
    requires text { length text.now < 2 ^ 32 }
    requires span { (pos 1 ≤ℤ span) × (span ≤ℤ pos 65536) }
    ensures read { ReadOut P.tells (TSRunningSum text.now key.now span from to) result out.new
        (view defs.now.definitions space.now (P.contents pages.old)) (P.contents pages.new) }
    ensures undisturbed { P.undisturbed pages.old pages.new }
{
    running_values(
        alloc,
        pages,
        page,
        defs,
        space,
        Function::Sum,
        text,
        key,
        span,
        from,
        to,
        out,
    )
}

/// Says the mean of a column in each element of a series from one stamp to another, both included, and those before it
/// there, `span` in all: a row for each, at its stamp, and how many they are. A text that names no column is refused
/// first, then a key that no series has, then a name that no column has, then a column of texts; TooLarge where the
/// rows are more than 1000000, and some lines stand in the reply by then. `page` is room to read one; the memory is for
/// the window and for the rows, one at a time.
pub fn running_avg<P: Pages>(
    alloc: Global,
    pages: &mut P,
    page: &mut Page,
    defs: &Defs,
    space: &Space,
    text: &Bytes,
    key: &Key,
    span: i64,
    from: Stamp,
    to: Stamp,
    out: &mut Reply,
) -> Result<(), Stop>
    requires seen { IsSeen P.tells (view defs.now.definitions space.now (P.contents pages.old)) }
    requires empty { out.old ≡ [] }
    requires text { length text.now < 2 ^ 32 }
    requires span { (pos 1 ≤ℤ span) × (span ≤ℤ pos 65536) }
    ensures read { ReadOut P.tells (TSRunningAvg text.now key.now span from to) result out.new
        (view defs.now.definitions space.now (P.contents pages.old)) (P.contents pages.new) }
    ensures undisturbed { P.undisturbed pages.old pages.new }
{
    running_values(
        alloc,
        pages,
        page,
        defs,
        space,
        Function::Avg,
        text,
        key,
        span,
        from,
        to,
        out,
    )
}

// Says the running values of a function.
fn running_values<P: Pages>(
    alloc: Global,
    pages: &mut P,
    page: &mut Page,
    defs: &Defs,
    space: &Space,
    function: Function,
    text: &Bytes,
    key: &Key,
    span: i64,
    from: Stamp,
    to: Stamp,
    out: &mut Reply,
) -> Result<(), Stop>
    requires seen { IsSeen P.tells (view defs.now.definitions space.now (P.contents pages.old)) }
    requires empty { out.old ≡ [] }
    requires text { length text.now < 2 ^ 32 }
    requires running { IsTrue (is_running function) }
    requires span { (pos 1 ≤ℤ span) × (span ≤ℤ pos 65536) }
    ensures read { ReadOut P.tells (running_of function text.now key.now span from to) result out.new
        (view defs.now.definitions space.now (P.contents pages.old)) (P.contents pages.new) }
    ensures undisturbed { P.undisturbed pages.old pages.new }
{
    let column = read_column(alloc, text.as_slice())?;
    let (shelf, shape) = shelf_of(pages, defs, space, key)?;
    let item = bind_column(function, column.as_slice(), shelf.kind)?;
    let places = span.unsigned_abs() as u32;
    let window = Running::new(alloc, places)?;
    let scales = [item.scale];
    let mut lines = FoldedLines::behind(out, &scales);
    let done = running_rows(
        pages, page, space, &shelf, &shape, window, item, from, to, &mut lines,
    )?;
    match done {
        Ok(count) => say_count(out, count)?,
        Err(refusal) => return Err(Stop::Refused(refusal)),
    }
    Ok(())
}

/// Says the values of expressions over those of each element of a series from one stamp to another, both included: a
/// row for each, at its stamp, and how many they are. A text that is no list is refused first, then a key that no
/// series has, then a list that its columns don't bear; TooLarge where the rows are more than 1000000, else Overflow
/// where a number has no place, and some lines stand in the reply by then. `page` is room to read one; the memory is
/// for the list and for the rows, one at a time.
pub fn apply_list<P: Pages>(
    alloc: Global,
    pages: &mut P,
    page: &mut Page,
    defs: &Defs,
    space: &Space,
    text: &Bytes,
    key: &Key,
    from: Stamp,
    to: Stamp,
    out: &mut Reply,
) -> Result<(), Stop>
    requires seen { IsSeen P.tells (view defs.now.definitions space.now (P.contents pages.old)) }
    requires empty { out.old ≡ [] }
    requires text { length text.now < 2 ^ 32 }
    ensures read { ReadOut P.tells (Apply text.now key.now from to) result out.new
        (view defs.now.definitions space.now (P.contents pages.old)) (P.contents pages.new) }
    ensures undisturbed { P.undisturbed pages.old pages.new }
{
    let list = ExprList::read(alloc, text.as_slice())?;
    let (shelf, shape) = shelf_of(pages, defs, space, key)?;
    let exprs = list.bind(shelf.kind)?;
    let mut lines = FoldedLines::behind(out, exprs.scales());
    let done = applied_rows(
        alloc, pages, page, space, &shelf, &shape, &exprs, from, to, &mut lines,
    )?;
    match done {
        Ok(count) => say_count(out, count)?,
        Err(refusal) => return Err(Stop::Refused(refusal)),
    }
    Ok(())
}
