// The routine that folds the elements of each series of a container by an aggregate list.
ghost use Rattle.std.specs.Prelude.{◌≡◌, ◌<◌, ◌≤◌, ◌^◌, ℕ, [], All, IfOk, IsSome, IsTrue, List, Some, length};
ghost use Rattle.std.specs.Prelude.{option_map};
ghost use Rattle.std.specs.List.{AllZip};
ghost use Rattle.ts_row.specs.Row.{Row as RowValue};
ghost use Rattle.ts_command.specs.declared.command.Command.TheVariants.{AggregateAll};
ghost use Rattle.ts_irregular.specs.Call.{Reads};
ghost use Rattle.ts_aggregate.specs.Stacks.{IsFoldOf};
ghost use Rattle.ts_model.specs.Definitions.{at_slot, series_slots};
ghost use Rattle.ts_layout.specs.Meaning.{Layout, heading_in};
ghost use Rattle.ts_answer.specs.View.{view, IsSeen, Shows};
ghost use Rattle.ts_answer.specs.CarriedOut.{ReadOut};
ghost use Rattle.ts_shelf.specs.Fresh.{IsFresh};
ghost use Rattle.ts_combined_rows.specs.Aggregates.{folded_at, folded_in, AreSaid};
ghost use Rattle.ts_combined_rows.specs.Gathered.{seen_by, AreLinesOf, HasSeries, IsGathered};

use crate::gathered::{ContainerRange, Gathered, gather, stands_in};
use std::alloc::{AllocError, Global};
use std::mem;
use std::thread::{Threads, join_mut};
use ts_aggregate::{Folding, Stack, aggregate_range};
use ts_answer::Stop;
use ts_base::{Bytes, Key, Name, Reply, Stamp, StoreFault};
use ts_container::row_type_in;
use ts_define::slot_named;
use ts_expr::{AggList, Bound};
use ts_model::{Def, Defs, Kind};
use ts_page::{Page, Pages};
use ts_parallel::OpenGate;
use ts_row::Row;
use ts_say::{say_count, say_series_folded};
use ts_shelf::shelf_at;
use ts_space::Space;

/// Says what an aggregate list makes of the elements of each series of a container from one stamp to another, both
/// included: a row for each series, in the order of their keys, and how many they are. A text that is no list is
/// refused first, then a container that isn't there, then a list that its columns don't bear. The pages that the range
/// touches are read into two lists in turn, 16 MiB of them at most, whose memory is kept: while one is read, as many
/// workers as serve fold the other. A series that alone has more pages than a list holds is folded a page at a time.
/// `page` is room to read one; the memory is for these pages, for the aggregate list, for what is known of the items
/// while they are folded, and for the rows.
pub fn aggregate_all<P: Pages>(
    rt: &(impl Threads + Sync),
    alloc: Global,
    pages: &mut P,
    page: &mut Page,
    defs: &Defs,
    space: &Space,
    text: &Bytes,
    container: &Name,
    from: Stamp,
    to: Stamp,
    out: &mut Reply,
) -> Result<(), Stop>
    requires seen { IsSeen P.tells (view defs.now.definitions space.now (P.contents pages.old)) }
    requires empty { out.old ≡ [] }
    requires text { length text.now < 2 ^ 32 }
    ensures read { ReadOut P.tells (AggregateAll text.now container.now from to) result out.new
        (view defs.now.definitions space.now (P.contents pages.old)) (P.contents pages.new) }
    ensures undisturbed { P.undisturbed pages.old pages.new }
{
    let list = AggList::read(alloc, text.as_slice())?;
    let slot = slot_named(defs, Kind::Container, container)?;
    let Some(kind) = row_type_in(defs, slot as u8) else {
        unreachable!()
    };
    let bound = list.bind(kind)?;
    let range = ContainerRange {
        defs,
        space,
        container: slot,
        from,
        to,
    };
    let count = say_all(rt, alloc, pages, page, &range, &bound, out)?;
    say_count(out, count)?;
    Ok(())
}

// Says what a list makes of each series of a range's container, and gives their number. What is gathered is of the
// slots that come next; where none of them is passed, the first has a series with more pages than a list holds.
fn say_all<P: Pages>(
    rt: &(impl Threads + Sync),
    alloc: Global,
    pages: &mut P,
    page: &mut Page,
    range: &ContainerRange<'_>,
    bound: &Bound,
    out: &mut Reply,
) -> Result<u64, StoreFault>
    requires seen { IsSeen P.tells (seen_by range.now (P.contents pages.old)) }
    requires columns { option_map (λ h. h.columns) (heading_in range.now.defs.now.definitions range.now.container)
        ≡ Some bound.now.columns }
    ensures said { IfOk result (λ count. IsTrue P.tells → (l : Layout)
        → Shows P.tells (seen_by range.now (P.contents pages.old)) l
        → AreSaid bound.now
        (folded_in bound.now range.now.from range.now.to l range.now.container) out.old out.new count) }
    ensures call { Reads P.tells result (P.contents pages.old) (P.contents pages.new) }
    ensures undisturbed { P.undisturbed pages.old pages.new }
{
    let slots = range.defs.in_order(Kind::Series);
    let mut folding = Folding::new(bound)?;
    let (mut current, mut next) = (Gathered::new(alloc), Gathered::new(alloc));
    gather(pages, range, slots, &mut current)?;
    let mut count = 0;
    let mut at = 0;
    while at < slots.len() {
        if current.passed == 0 {
            count += say_if_inside(pages, page, range, slots[at], bound, &mut folding, out)?;
            at += 1;
            gather(pages, range, &slots[at..], &mut current)?;
        } else {
            at += current.passed;
            let rest = &slots[at..];
            let rows = fold_and_gather(rt, alloc, pages, range, rest, bound, &current, &mut next)?;
            count += say_rows(range.defs, bound, &current.stacks, &rows, out)?;
            mem::swap(&mut current, &mut next);
        }
    }
    Ok(count)
}

// What a list makes of what is gathered, by several workers: a row for each stack. Meanwhile this thread gathers the
// series in other slots into `next`, of which after an error nothing is said.
fn fold_and_gather<'a, P: Pages>(
    rt: &(impl Threads + Sync),
    alloc: Global,
    pages: &mut P,
    range: &ContainerRange<'a>,
    slots: &[u16],
    bound: &Bound,
    current: &Gathered<'a>,
    next: &mut Gathered<'a>,
) -> Result<Vec<Row>, StoreFault>
    requires seen { IsSeen P.tells (seen_by range.now (P.contents pages.old)) }
    requires slots { All (λ slot. slot < series_slots) slots.now }
    ensures folded { IfOk result
        (λ rows.
        AllZip (IsFoldOf bound.now range.now.from range.now.to current.now.pages) current.now.stacks.items rows.items) }
    ensures gathered { IfOk result (λ _. IsGathered P.tells (P.contents pages.old) range.now slots.now next.new) }
    ensures call { Reads P.tells result (P.contents pages.old) (P.contents pages.new) }
    ensures undisturbed { P.undisturbed pages.old pages.new }
{
    if slots.is_empty() {
        next.clear();
        let rows = fold(rt, alloc, range, bound, current)?;
        return Ok(rows);
    }
    let (rows, gathered) = join_mut(
        rt,
        &mut || fold(rt, alloc, range, bound, current),
        &mut || { gather(pages, range, slots, next) },
    );
    gathered?;
    let rows = rows?;
    Ok(rows)
}

// What a list makes of what is gathered: a row for each stack.
fn fold(
    rt: &(impl Threads + Sync),
    alloc: Global,
    range: &ContainerRange<'_>,
    bound: &Bound,
    gathered: &Gathered<'_>,
) -> Result<Vec<Row>, AllocError>
    ensures { IfOk result (λ rows. AllZip (IsFoldOf bound.now range.now.from range.now.to gathered.now.pages) gathered.now.stacks.items rows.items) }
{
    let pages = gathered.pages.as_slice();
    let stacks = &gathered.stacks;
    ts_aggregate::aggregate_all(
        rt, alloc, &OpenGate, bound, pages, stacks, range.from, range.to,
    )
}

// Says the row of each stack with the key of its series, and gives their number.
fn say_rows(
    defs: &Defs,
    bound: &Bound,
    stacks: &[Stack<'_>],
    rows: &[Row],
    out: &mut Reply,
) -> Result<u64, AllocError>
    requires series { All (HasSeries defs.now.definitions) stacks.now }
    requires as_many { length rows.now ≡ length stacks.now }
    ensures said { IfOk result (λ count. (lines : List (List ℕ × RowValue))
        × AreLinesOf defs.now.definitions stacks.now rows.now lines
        × AreSaid bound.now lines out.old out.new count) }
{
    for (stack, row) in stacks.iter().zip(rows) {
        let key = key_at(defs, stack.shelf.series);
        say_series_folded(out, key, bound.scales(), row)?;
    }
    Ok(stacks.len() as u64)
}

// The key of the series in a slot.
fn key_at(defs: &Defs, slot: u16) -> &Key
    requires within { slot < series_slots }
    requires some { IsSome (at_slot slot defs.now.definitions.series) }
    ensures { option_map (λ s. s.key) (at_slot slot defs.now.definitions.series) ≡ Some result.now }
{
    let Some(def) = defs.get(Kind::Series, slot) else {
        unreachable!()
    };
    match def {
        Def::Series { key, .. } => key,
        _ => unreachable!(),
    }
}

// Says what it makes of the series in a slot, if it stands in the range's container; and how many that are.
fn say_if_inside<P: Pages>(
    pages: &mut P,
    page: &mut Page,
    range: &ContainerRange<'_>,
    slot: u16,
    bound: &Bound,
    folding: &mut Folding<'_>,
    out: &mut Reply,
) -> Result<u64, StoreFault>
    requires seen { IsSeen P.tells (seen_by range.now (P.contents pages.old)) }
    requires slot { slot < series_slots }
    requires columns { option_map (λ h. h.columns) (heading_in range.now.defs.now.definitions range.now.container)
        ≡ Some bound.now.columns }
    ensures one { IfOk result (λ count. count ≤ 1) }
    ensures said { IfOk result (λ count. IsTrue P.tells → (l : Layout)
        → Shows P.tells (seen_by range.now (P.contents pages.old)) l
        → IsFresh bound.now folding.old → IsFresh bound.now folding.new
        × AreSaid bound.now
        (folded_at bound.now range.now.from range.now.to l range.now.container slot) out.old out.new count) }
    ensures call { Reads P.tells result (P.contents pages.old) (P.contents pages.new) }
    ensures undisturbed { P.undisturbed pages.old pages.new }
{
    if !stands_in(range, slot) {
        return Ok(0);
    }
    let (shelf, shape) = shelf_at(pages, range.defs, range.space, slot);
    let (from, to) = (range.from, range.to);
    let row = aggregate_range(pages, page, range.space, &shelf, &shape, folding, from, to)?;
    say_series_folded(out, key_at(range.defs, slot), bound.scales(), &row)?;
    Ok(1)
}
