// The routine that says what stands in the windows of a set.
ghost use Rattle.std.specs.Prelude.{◌≡◌, ◌<◌, ◌≤◌, ℕ, [], EachIndex, IfOk, IfSome, IsTrue, List, None, Ok, length};
ghost use Rattle.std.specs.Prelude.{slice_index, map};
ghost use Rattle.ts_row.specs.declared.kind.Column.{Column};
ghost use Rattle.ts_command.specs.declared.command.Command.TheVariants.{RollingClip};
ghost use Rattle.ts_irregular.specs.Call.{Reads};
ghost use Rattle.ts_layout.specs.Meaning.{Layout, heading_at};
ghost use Rattle.ts_rolling.specs.Sets.{is_set};
ghost use Rattle.ts_answer.specs.View.{view, IsSeen, Shows};
ghost use Rattle.ts_answer.specs.CarriedOut.{ReadOut};
ghost use Rattle.ts_entry.specs.Entry.{filled};
ghost use Rattle.ts_rolling_sets.specs.Windows.{seen_at, seen_in, entries_in, AreSaid, IsWindowSlot, HasColumns};

use crate::control::{control_of, home_of};
use crate::live::window_slots;
use std::alloc::Global;
use ts_answer::Stop;
use ts_base::{Key, Refusal, Reply, Stamp, StoreFault};
use ts_clip::{clip, clip_len};
use ts_entry::EntryVisitor;
use ts_model::Defs;
use ts_page::{Page, Pages};
use ts_say::{EntryLines, say_count};
use ts_shelf::shelf_at;
use ts_space::Space;

/// The most rows of a reply.
const MOST_ROWS: u64 = 1_000_000;

/// Says the elements in the windows of a set from one stamp to another, both included, that aren't hidden: window by
/// window, those of each in order, and how many they are; TooLarge where they are more than 1000000, and some lines
/// stand in the reply by then. `page` is room to read one.
pub fn clip_set<P: Pages>(
    alloc: Global,
    pages: &mut P,
    page: &mut Page,
    defs: &Defs,
    space: &Space,
    set: &Key,
    from: Stamp,
    to: Stamp,
    out: &mut Reply,
) -> Result<(), Stop>
    requires seen { IsSeen P.tells (view defs.now.definitions space.now (P.contents pages.old)) }
    requires set { IsTrue (is_set set.now) }
    requires empty { out.old ≡ [] }
    ensures read { ReadOut P.tells (RollingClip set.now from to) result out.new
        (view defs.now.definitions space.now (P.contents pages.old)) (P.contents pages.new) }
    ensures undisturbed { P.undisturbed pages.old pages.new }
{
    let control = control_of(pages, defs, space, set)?;
    let (container, _) = home_of(defs, control.shelf.series);
    let slots = window_slots(alloc, defs, set, container)?;
    match say_all(pages, page, defs, space, &slots, from, to, out)? {
        Ok(()) => Ok(()),
        Err(refusal) => Err(Stop::Refused(refusal)),
    }
}

// Says what is seen in windows, and how many elements that are; or why they are refused, and then some lines stand in
// the reply. All pages stay; `page` is room to read one.
fn say_all<P: Pages>(
    pages: &mut P,
    page: &mut Page,
    defs: &Defs,
    space: &Space,
    slots: &[u16],
    from: Stamp,
    to: Stamp,
    out: &mut Reply,
) -> Result<Result<(), Refusal>, StoreFault>
    requires seen { IsSeen P.tells (view defs.now.definitions space.now (P.contents pages.old)) }
    requires windows { EachIndex slots.now (λ k. IsWindowSlot defs.now.definitions (slice_index slots.now k)) }
    requires few { length slots.now ≤ 4096 }
    requires empty { out.old ≡ [] }
    ensures said { IfOk result (λ done. IsTrue P.tells → (columns : List Column) (l : Layout)
        → EachIndex slots.now (λ k. HasColumns columns (heading_at defs.now.definitions (slice_index slots.now k)))
        → Shows P.tells (view defs.now.definitions space.now (P.contents pages.old)) l
        → AreSaid columns (seen_in l from to slots.now) done out.new) }
    ensures call { Reads P.tells result (P.contents pages.old) (P.contents pages.new) }
    ensures undisturbed { P.undisturbed pages.old pages.new }
{
    let mut lines = EntryLines::behind(out);
    let said = say_windows(pages, page, defs, space, slots, from, to, &mut lines)?;
    let Some(count) = said else {
        let rows = count_windows(pages, page, defs, space, slots, from, to)?;
        return Ok(Err(Refusal::TooLarge { rows }));
    };
    say_count(out, count)?;
    Ok(Ok(()))
}

// Hands what is seen in windows to a visitor, and tells how many elements that are; none where they are more than a
// reply may have, and then some were handed on. All pages stay; `page` is room to read one.
fn say_windows<P: Pages, V: EntryVisitor>(
    pages: &mut P,
    page: &mut Page,
    defs: &Defs,
    space: &Space,
    slots: &[u16],
    from: Stamp,
    to: Stamp,
    visitor: &mut V,
) -> Result<Option<u64>, StoreFault>
    requires seen { IsSeen P.tells (view defs.now.definitions space.now (P.contents pages.old)) }
    requires windows { EachIndex slots.now (λ k. IsWindowSlot defs.now.definitions (slice_index slots.now k)) }
    ensures taken { IfOk result (λ said. IfSome said (λ count. IsTrue P.tells → (columns : List Column) (l : Layout)
        → EachIndex slots.now (λ k. HasColumns columns (heading_at defs.now.definitions (slice_index slots.now k)))
        → Shows P.tells (view defs.now.definitions space.now (P.contents pages.old)) l
        → V.took columns visitor.old (entries_in l from to slots.now) visitor.new)) }
    ensures counted { IfOk result (λ said. IfSome said (λ count. IsTrue P.tells → (l : Layout)
        → Shows P.tells (view defs.now.definitions space.now (P.contents pages.old)) l
        → count ≡ length (seen_in l from to slots.now))) }
    ensures few { IfOk result (λ said. IfSome said (λ count. count ≤ 1_000_000)) }
    ensures many { IfOk result (λ said. said ≡ None → IsTrue P.tells → (l : Layout)
        → Shows P.tells (view defs.now.definitions space.now (P.contents pages.old)) l
        → 1_000_000 < length (seen_in l from to slots.now)) }
    ensures call { Reads P.tells result (P.contents pages.old) (P.contents pages.new) }
    ensures undisturbed { P.undisturbed pages.old pages.new }
{
    let mut count = 0;
    for slot in slots {
        let room = MOST_ROWS - count;
        let Some(more) = say_window(pages, page, defs, space, *slot, from, to, room, visitor)?
        else {
            return Ok(None);
        };
        count += more;
    }
    Ok(Some(count))
}

// The same of the window in a slot, where there is room for so many.
fn say_window<P: Pages, V: EntryVisitor>(
    pages: &mut P,
    page: &mut Page,
    defs: &Defs,
    space: &Space,
    slot: u16,
    from: Stamp,
    to: Stamp,
    room: u64,
    visitor: &mut V,
) -> Result<Option<u64>, StoreFault>
    requires seen { IsSeen P.tells (view defs.now.definitions space.now (P.contents pages.old)) }
    requires window { IsWindowSlot defs.now.definitions slot }
    requires room { room ≤ 1_000_000 }
    ensures taken { IfOk result (λ said. IfSome said (λ count. IsTrue P.tells → (columns : List Column) (l : Layout)
        → HasColumns columns (heading_at defs.now.definitions slot)
        → Shows P.tells (view defs.now.definitions space.now (P.contents pages.old)) l
        → V.took columns visitor.old (map filled (seen_at l from to slot)) visitor.new)) }
    ensures counted { IfOk result (λ said. IfSome said (λ count. IsTrue P.tells → (l : Layout)
        → Shows P.tells (view defs.now.definitions space.now (P.contents pages.old)) l
        → count ≡ length (seen_at l from to slot))) }
    ensures few { IfOk result (λ said. IfSome said (λ count. count ≤ room)) }
    ensures many { IfOk result (λ said. said ≡ None → IsTrue P.tells → (l : Layout)
        → Shows P.tells (view defs.now.definitions space.now (P.contents pages.old)) l
        → room < length (seen_at l from to slot)) }
    ensures call { Reads P.tells result (P.contents pages.old) (P.contents pages.new) }
    ensures undisturbed { P.undisturbed pages.old pages.new }
{
    let (shelf, shape) = shelf_at(pages, defs, space, slot);
    let done = clip(pages, page, space, &shelf, &shape, from, to, visitor)?;
    Ok(within(done, room))
}

// How many were read, where there is room for so many.
fn within(done: Result<u64, Refusal>, room: u64) -> Option<u64>
    ensures some { IfSome result (λ n. (done ≡ Ok n) × (n ≤ room)) }
    ensures none { result ≡ None → (n : ℕ) → done ≡ Ok n → room < n }
{
    match done {
        Ok(count) => { if count <= room { Some(count) } else { None } }
        Err(_) => None,
    }
}

// How many elements are seen in windows. All pages stay; `page` is room to read one.
fn count_windows<P: Pages>(
    pages: &mut P,
    page: &mut Page,
    defs: &Defs,
    space: &Space,
    slots: &[u16],
    from: Stamp,
    to: Stamp,
) -> Result<u64, StoreFault>
    requires seen { IsSeen P.tells (view defs.now.definitions space.now (P.contents pages.old)) }
    requires windows { EachIndex slots.now (λ k. IsWindowSlot defs.now.definitions (slice_index slots.now k)) }
    requires few { length slots.now ≤ 4096 }
    ensures count { IfOk result (λ count. IsTrue P.tells → (l : Layout)
        → Shows P.tells (view defs.now.definitions space.now (P.contents pages.old)) l
        → count ≡ length (seen_in l from to slots.now)) }
    ensures call { Reads P.tells result (P.contents pages.old) (P.contents pages.new) }
    ensures undisturbed { P.undisturbed pages.old pages.new }
{
    let mut count: u64 = 0;
    for slot in slots {
        let more = count_window(pages, page, defs, space, *slot, from, to)?;
        count = count.saturating_add(more);
    }
    Ok(count)
}

// The same of the window in a slot.
fn count_window<P: Pages>(
    pages: &mut P,
    page: &mut Page,
    defs: &Defs,
    space: &Space,
    slot: u16,
    from: Stamp,
    to: Stamp,
) -> Result<u64, StoreFault>
    requires seen { IsSeen P.tells (view defs.now.definitions space.now (P.contents pages.old)) }
    requires window { IsWindowSlot defs.now.definitions slot }
    ensures count { IfOk result (λ count. IsTrue P.tells → (l : Layout)
        → Shows P.tells (view defs.now.definitions space.now (P.contents pages.old)) l
        → count ≡ length (seen_at l from to slot)) }
    ensures call { Reads P.tells result (P.contents pages.old) (P.contents pages.new) }
    ensures undisturbed { P.undisturbed pages.old pages.new }
{
    let (shelf, shape) = shelf_at(pages, defs, space, slot);
    let count = clip_len(pages, page, space, &shelf, &shape, from, to)?;
    Ok(count)
}
