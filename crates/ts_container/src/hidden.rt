// Which series have hidden elements.
ghost use Rattle.std.specs.Prelude.{◌≡◌, ℕ, true, IfOk, slice_index_or};
ghost use Rattle.ts_container.specs.Spans.{AreMarked};

use crate::span::Span;
use std::alloc::{AllocError, Global};
use ts_model::Kind;

/// Of each slot of a series whether it is marked: whether one of these pages is of that series and has a hidden
/// element.
pub(crate) fn hidden_in(alloc: Global, spans: &[Span]) -> Result<Vec<bool>, AllocError>
    ensures { IfOk result (λ marks. AreMarked spans.now marks.items) }
{
    let mut marks = vec![in alloc; false; Kind::Series.limit() as usize]?;
    for span in spans {
        if span.hidden {
            mark(&mut marks, span.slot as usize);
        }
    }
    Ok(marks)
}

// Marks a slot.
fn mark(marks: &mut Vec<bool>, slot: usize)
    ensures marked { slice_index_or marks.new.items slot true ≡ true }
    ensures others { (other : ℕ) → slice_index_or marks.old.items other true ≡ true
        → slice_index_or marks.new.items other true ≡ true }
{
    if slot >= marks.len() {
        return;
    }
    marks[slot] = true;
}
