// Series whose pages were read, folded by several workers.
ghost use Rattle.std.specs.Prelude.{◌≡◌, IfOk, map};
ghost use Rattle.std.specs.List.{AllZip};
ghost use Rattle.ts_aggregate.specs.Stacks.{IsFoldOf, pages_of};

use crate::folding::Folding;
use crate::series_pages::Stack;
use std::alloc::{AllocError, Global};
use std::thread::Threads;
use ts_base::Stamp;
use ts_clip::rows_of_pages;
use ts_expr::Bound;
use ts_page::Page;
use ts_parallel::{Gate, map_in_order};
use ts_row::Row;

/// What a list makes of the elements of each stack from one stamp to another, both included, those that aren't hidden:
/// a row for each, in the order of the stacks, by as many workers as serve. The pages of all stacks were read into one
/// list. A worker passes the gate before each stack; the rows are the same for every gate. The memory is for the
/// answers and for what is known of the items of each stack while it is folded.
pub fn aggregate_all<G: Gate + Sync>(
    rt: &(impl Threads + Sync),
    alloc: Global,
    gate: &G,
    bound: &Bound,
    read: &[Page],
    stacks: &[Stack<'_>],
    from: Stamp,
    to: Stamp,
) -> Result<Vec<Row>, AllocError>
    ensures folded { IfOk result (λ rows. AllZip (IsFoldOf bound.now from to read.now) stacks.now rows.items) }
{
    let answers = map_in_order(
        rt,
        alloc,
        gate,
        stacks,
        &|stack: &Stack<'_>| -> Result<Row, AllocError>
            ensures { IfOk result (λ row. IsFoldOf bound.entry.now from to read.entry.now stack.now row) }
        { fold_stack(bound, read, stack, from, to) },
    )?;
    all_or_none(alloc, answers)
}

// What it makes of one.
fn fold_stack(
    bound: &Bound,
    read: &[Page],
    stack: &Stack<'_>,
    from: Stamp,
    to: Stamp,
) -> Result<Row, AllocError>
    ensures { IfOk result (λ row. IsFoldOf bound.now from to read.now stack.now row) }
{
    let mut folding = Folding::new(bound)?;
    rows_of_pages(
        pages_of(read, stack),
        stack.places,
        &stack.shelf,
        &stack.shape,
        from,
        to,
        &mut folding,
    )?;
    folding.finish()
}

// The pages of a stack, as far as they were read.
fn pages_of<'a>(read: &'a [Page], stack: &Stack<'_>) -> &'a [Page]
    ensures { result.now ≡ pages_of read.now stack.now }
{
    let behind = &read[stack.first.min(read.len())..];
    &behind[..stack.places.len().min(behind.len())]
}

// The rows of all answers, in their order, or the error where one is an error.
fn all_or_none(alloc: Global, answers: Vec<Result<Row, AllocError>>) -> Result<Vec<Row>, AllocError>
    ensures { IfOk result (λ rows. answers.items ≡ map (λ row. Ok row) rows.items) }
{
    let mut rows = Vec::with_capacity(alloc, answers.len())?;
    for answer in answers {
        rows.push(answer?)?;
    }
    Ok(rows)
}
