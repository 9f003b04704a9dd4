// The pages of the series of a container, read into memory: those that a range touches, list after list.
ghost use Rattle.std.specs.Prelude.{◌≡◌, ◌+◌, ◌<◌, ◌≤◌, ◌++◌, ℕ, All, IfOk, IfSome, List, length};
ghost use Rattle.ts_page.specs.declared.page.Page.{Page};
ghost use Rattle.ts_irregular.specs.Call.{Reads};
ghost use Rattle.ts_sheets.specs.Places.{CanBeRead};
ghost use Rattle.ts_model.specs.declared.kind.Kind.TheVariants.{Series};
ghost use Rattle.ts_model.specs.Definitions.{at_slot, series_slots};
ghost use Rattle.ts_answer.specs.Slots.{IsSlotNamed};
ghost use Rattle.ts_answer.specs.View.{IsSeen};
ghost use Rattle.ts_combined_rows.specs.Gathered.{seen_by, stands_in, IsStackOf, AreRead, IsEmpty, IsGathered};

use crate::page_list::{MOST_PAGES, PageList};
use std::alloc::Global;
use ts_aggregate::Stack;
use ts_base::{Stamp, StoreFault};
use ts_clip::places_of_range;
use ts_model::{Def, Defs, Kind};
use ts_page::Pages;
use ts_shelf::shelf_at;
use ts_space::{Place, Space};

/// The elements of the series of a container from one stamp to another, both included.
#[derive(Drop)]
pub(crate) struct ContainerRange<'a> {
    pub(crate) defs: &'a Defs,
    pub(crate) space: &'a Space,
    /// The container's slot.
    pub(crate) container: u16,
    pub(crate) from: Stamp,
    pub(crate) to: Stamp,
}

/// The series of a container among the first of some slots: the pages of each that a range touches, in one list, and
/// its stack.
#[derive(Drop)]
pub(crate) struct Gathered<'a> {
    pub(crate) pages: PageList,
    pub(crate) stacks: Vec<Stack<'a>>,
    /// How many of the slots are passed.
    pub(crate) passed: usize,
}

impl<'a> Gathered<'a> {
    /// No series.
    pub(crate) fn new(alloc: Global) -> Gathered<'a>
        ensures { IsEmpty result }
    {
        Gathered {
            pages: PageList::new(alloc),
            stacks: Vec::new(alloc),
            passed: 0,
        }
    }

    /// Forgets all series. The memory is kept.
    pub(crate) fn clear(&mut self)
        ensures { IsEmpty self.new }
    {
        self.pages.clear();
        self.stacks.clear();
        self.passed = 0;
    }
}

/// Gathers the series of a container in the first of some slots, in place of what was gathered, as long as the list has
/// room for the pages of the next. No slot is passed where the first series alone has more pages than a list holds. All
/// pages of the volume stay. After an error nothing is said of what is gathered.
pub(crate) fn gather<'a, P: Pages>(
    pages: &mut P,
    range: &ContainerRange<'a>,
    slots: &[u16],
    gathered: &mut Gathered<'a>,
) -> Result<(), StoreFault>
    requires seen { IsSeen P.tells (seen_by range.now (P.contents pages.old)) }
    requires slots { All (λ slot. slot < series_slots) slots.now }
    ensures gathered { IfOk result (λ _. IsGathered P.tells (P.contents pages.old) range.now slots.now gathered.new) }
    ensures call { Reads P.tells result (P.contents pages.old) (P.contents pages.new) }
    ensures undisturbed { P.undisturbed pages.old pages.new }
{
    gathered.clear();
    for (passed, slot) in slots.iter().enumerate() {
        gathered.passed = passed;
        if !stands_in(range, *slot) {
            continue;
        }
        let Some(stack) = stack_at(pages, range, *slot, &mut gathered.pages)? else {
            return Ok(());
        };
        gathered.stacks.push(stack)?;
    }
    gathered.passed = slots.len();
    Ok(())
}

/// Whether the series in a slot stands in the container.
pub(crate) fn stands_in(range: &ContainerRange<'_>, slot: u16) -> bool
    requires { slot < series_slots }
    ensures { result ≡ stands_in range.now.container (at_slot slot range.now.defs.now.definitions.series) }
{
    match range.defs.get(Kind::Series, slot) {
        Some(Def::Series { container, .. }) => *container as u16 == range.container,
        _ => false,
    }
}

// The stack of the series in a slot, its pages read behind those that are held; none, where the list has no room for
// them.
fn stack_at<'a, P: Pages>(
    pages: &mut P,
    range: &ContainerRange<'a>,
    slot: u16,
    held: &mut PageList,
) -> Result<Option<Stack<'a>>, StoreFault>
    requires seen { IsSeen P.tells (seen_by range.now (P.contents pages.old)) }
    requires named { (key : List ℕ) × IsSlotNamed Series slot key range.now.defs.now.definitions }
    ensures stack { IfOk result
        (λ found.
        IfSome found
        (IsStackOf P.tells (seen_by range.now (P.contents pages.old)) range.now.from range.now.to held.new slot)) }
    ensures behind { IfOk result (λ _. (more : List Page) × (held.new ≡ held.old ++ more)) }
    ensures call { Reads P.tells result (P.contents pages.old) (P.contents pages.new) }
    ensures undisturbed { P.undisturbed pages.old pages.new }
{
    let (shelf, shape) = shelf_at(pages, range.defs, range.space, slot);
    let all_places = range.space.places(slot);
    let places = places_of_range(shelf.kind, &shape, all_places, range.from, range.to);
    let first = held.len();
    if places.len() > MOST_PAGES - first {
        return Ok(None);
    }
    read_pages(pages, places, held)?;
    Ok(Some(Stack {
        shelf,
        shape,
        places,
        first,
    }))
}

// Reads the pages of places behind those that are held, in the order of the places.
fn read_pages<P: Pages>(
    pages: &mut P,
    places: &[Place],
    held: &mut PageList,
) -> Result<(), StoreFault>
    requires readable { All (CanBeRead (P.contents pages.old)) places.now }
    requires room { length held.old + length places.now ≤ MOST_PAGES }
    ensures read { IfOk result (λ _. AreRead P.tells (P.contents pages.old).page places.now held.old held.new) }
    ensures call { Reads P.tells result (P.contents pages.old) (P.contents pages.new) }
    ensures undisturbed { P.undisturbed pages.old pages.new }
{
    for place in places {
        held.read(pages, place.page)?;
    }
    Ok(())
}
