// The routines that fold the elements of one series by an aggregate list: those of a range as one row, or a row for
// each on interval.
ghost use Rattle.std.specs.Prelude.{◌≡◌, ◌<◌, ◌^◌, [], length};
ghost use Rattle.ts_command.specs.declared.command.Command.TheVariants.{AggregateBy, AggregateRange};
ghost use Rattle.ts_answer.specs.View.{view, IsSeen};
ghost use Rattle.ts_answer.specs.CarriedOut.{ReadOut};

use std::alloc::Global;
use ts_aggregate::Folding;
use ts_answer::Stop;
use ts_base::{Bytes, Key, Name, Reply, Stamp};
use ts_define::calendar_named;
use ts_expr::AggList;
use ts_model::Defs;
use ts_page::{Page, Pages};
use ts_say::{FoldedLines, say_count, say_folded};
use ts_shelf::shelf_of;
use ts_space::Space;

/// Says what an aggregate list makes of the elements of a series from one stamp to another, both included: one row, at
/// the first stamp. A text that is no list is refused first, then a key that no series has, then a list that its
/// columns don't bear. `page` is room to read one; the memory is for the list and for the row.
pub fn aggregate_range<P: Pages>(
    alloc: Global,
    pages: &mut P,
    page: &mut Page,
    defs: &Defs,
    space: &Space,
    text: &Bytes,
    key: &Key,
    from: Stamp,
    to: Stamp,
    out: &mut Reply,
) -> Result<(), Stop>
    requires seen { IsSeen P.tells (view defs.now.definitions space.now (P.contents pages.old)) }
    requires empty { out.old ≡ [] }
    requires text { length text.now < 2 ^ 32 }
    ensures read { ReadOut P.tells (AggregateRange text.now key.now from to) result out.new
        (view defs.now.definitions space.now (P.contents pages.old)) (P.contents pages.new) }
    ensures undisturbed { P.undisturbed pages.old pages.new }
{
    let list = AggList::read(alloc, text.as_slice())?;
    let (shelf, shape) = shelf_of(pages, defs, space, key)?;
    let bound = list.bind(shelf.kind)?;
    let mut folding = Folding::new(&bound)?;
    let row = ts_aggregate::aggregate_range(
        pages,
        page,
        space,
        &shelf,
        &shape,
        &mut folding,
        from,
        to,
    )?;
    say_folded(out, bound.scales(), from, &row)?;
    Ok(())
}

/// Says what an aggregate list makes of the elements of a series by the on intervals of a calendar that start from one
/// stamp to another, both included: a row for each that holds an element that isn't hidden, at its start, and how many
/// they are. A text that is no list is refused first, then a calendar that isn't there, then a key that no series has,
/// then a list that its columns don't bear; TooLarge where the rows are more than 1000000. `page` is room to read one;
/// the memory is for the list and for the rows, one at a time.
pub fn aggregate_by<P: Pages>(
    alloc: Global,
    pages: &mut P,
    page: &mut Page,
    defs: &Defs,
    space: &Space,
    text: &Bytes,
    calendar: &Name,
    key: &Key,
    from: Stamp,
    to: Stamp,
    out: &mut Reply,
) -> Result<(), Stop>
    requires seen { IsSeen P.tells (view defs.now.definitions space.now (P.contents pages.old)) }
    requires empty { out.old ≡ [] }
    requires text { length text.now < 2 ^ 32 }
    ensures read { ReadOut P.tells (AggregateBy text.now calendar.now key.now from to) result out.new
        (view defs.now.definitions space.now (P.contents pages.old)) (P.contents pages.new) }
    ensures undisturbed { P.undisturbed pages.old pages.new }
{
    let list = AggList::read(alloc, text.as_slice())?;
    let plan = calendar_named(defs, calendar)?;
    let (shelf, shape) = shelf_of(pages, defs, space, key)?;
    let bound = list.bind(shelf.kind)?;
    let mut folding = Folding::new(&bound)?;
    let mut lines = FoldedLines::behind(out, bound.scales());
    let done = ts_aggregate::aggregate_by(
        pages,
        page,
        space,
        &shelf,
        &shape,
        plan,
        &mut folding,
        from,
        to,
        &mut lines,
    )?;
    match done {
        Ok(count) => say_count(out, count)?,
        Err(refusal) => return Err(Stop::Refused(refusal)),
    }
    Ok(())
}
