// The statements of the elements of all series, said page by page.
ghost use Rattle.std.specs.Prelude.{◌≡◌, ◌<◌, ◌∷◌, [], IsTrue, List, OnOk, Some};
ghost use Rattle.std.specs.List.{flat_map};
ghost use Rattle.ts_page.specs.Pages.{IsElementPage};
ghost use Rattle.ts_journal.specs.Journal.{pages};
ghost use Rattle.ts_row.specs.Row.{Element};
ghost use Rattle.ts_space.specs.Directory.{places_of};
ghost use Rattle.ts_clip.specs.Series.{HaveOnPlaces};
ghost use Rattle.ts_offset.specs.Shape.{IsLaidOut};
ghost use Rattle.ts_model.specs.Definitions.{SeriesDef, at_slot, series_slots};
ghost use Rattle.ts_layout.specs.Meaning.{Layout};
ghost use Rattle.ts_dump.specs.Chosen.{IsWithin, texts_within};
ghost use Rattle.ts_dump.specs.Elements.{all_series_texts, texts_of_elements, series_texts};
ghost use Rattle.ts_dump.specs.Held.{HaveParts, IsLayoutOf, IsOpen, IsStoreOf};
ghost use Rattle.ts_dump.specs.Placed.{SaysTexts};
ghost use Rattle.ts_dump.specs.Saying.{Caused};

use crate::choice::Choice;
use crate::element_texts::ElementTexts;
use crate::ended::Fault;
use crate::grouping::Grouping;
use crate::opened::Opened;
use std::alloc::Global;
use std::slice;
use ts_base::Stamp;
use ts_clip::rows_of_pages;
use ts_container::{row_type_of, shape_of};
use ts_disk::Site;
use ts_model::Kind;
use ts_offset::Shape;
use ts_page::Page;
use ts_row::Shelf;
use ts_space::Place;
use ts_store::Store;

/// Says the statements of the elements that were chosen.
pub(crate) fn say_elements<S: Site>(
    alloc: Global,
    choice: Choice,
    opened: &Opened,
    grouping: &mut Grouping,
    site: &mut S,
) -> Result<(), Fault>
    requires within { IsWithin choice }
    requires open { IsOpen S.tells opened.now (S.device site.old) }
    ensures caused { Caused result (S.device site.old) (S.device site.new) }
    ensures said { IsTrue S.tells → (l : Layout)
        → IsLayoutOf opened.now.found.defs.definitions opened.now.found.space (S.device site.old).held l
        → SaysTexts grouping.old (texts_within l choice) grouping.new result (S.device site.old) (S.device site.new) }
{
    let mut page = Page::zero();
    match choice {
        Choice::All => say_all(alloc, opened, &mut page, grouping, site),
        Choice::DefinitionsAlone => Ok(()),
        Choice::Series { slot } => say_slot(alloc, opened, slot, &mut page, grouping, site),
    }
}

// Says those of all series, one after the other in the order of their keys.
fn say_all<S: Site>(
    alloc: Global,
    opened: &Opened,
    page: &mut Page,
    grouping: &mut Grouping,
    site: &mut S,
) -> Result<(), Fault>
    requires open { IsOpen S.tells opened.now (S.device site.old) }
    ensures caused { Caused result (S.device site.old) (S.device site.new) }
    ensures said { IsTrue S.tells → (l : Layout)
        → IsLayoutOf opened.now.found.defs.definitions opened.now.found.space (S.device site.old).held l
        → SaysTexts grouping.old (all_series_texts l) grouping.new result (S.device site.old) (S.device site.new) }
{
    for slot in opened.found.defs.in_order(Kind::Series) {
        say_slot(alloc, opened, *slot, page, grouping, site)?;
    }
    Ok(())
}

// Says those of the series in a slot, if one stands there.
fn say_slot<S: Site>(
    alloc: Global,
    opened: &Opened,
    slot: u16,
    page: &mut Page,
    grouping: &mut Grouping,
    site: &mut S,
) -> Result<(), Fault>
    requires slot { slot < series_slots }
    requires open { IsOpen S.tells opened.now (S.device site.old) }
    ensures caused { Caused result (S.device site.old) (S.device site.new) }
    ensures said { IsTrue S.tells → (l : Layout)
        → IsLayoutOf opened.now.found.defs.definitions opened.now.found.space (S.device site.old).held l
        → SaysTexts grouping.old (series_texts l slot) grouping.new result (S.device site.old) (S.device site.new) }
{
    match opened.found.defs.get(Kind::Series, slot) {
        Some(def) => say_series(alloc, opened, slot, def.name(), page, grouping, site),
        None => Ok(()),
    }
}

// Says those of the series in a slot, which has this key.
fn say_series<S: Site>(
    alloc: Global,
    opened: &Opened,
    slot: u16,
    key: &[u8],
    page: &mut Page,
    grouping: &mut Grouping,
    site: &mut S,
) -> Result<(), Fault>
    requires slot { slot < series_slots }
    requires there { (s : SeriesDef) × (at_slot slot opened.now.found.defs.definitions.series ≡ Some s)
        × (s.key ≡ key.now) }
    requires open { IsOpen S.tells opened.now (S.device site.old) }
    ensures caused { Caused result (S.device site.old) (S.device site.new) }
    ensures said { IsTrue S.tells → (l : Layout)
        → IsLayoutOf opened.now.found.defs.definitions opened.now.found.space (S.device site.old).held l
        → SaysTexts grouping.old (series_texts l slot) grouping.new result (S.device site.old) (S.device site.new) }
{
    let defs = &opened.found.defs;
    let Some(kind) = row_type_of(defs, slot) else {
        return Ok(());
    };
    let Some(shape) = shape_of(defs, slot) else {
        return Ok(());
    };
    let shelf = Shelf { series: slot, kind };
    say_places(alloc, opened, &shelf, &shape, key, page, grouping, site)
}

// Says those on the pages of a series, one page after the other.
fn say_places<S: Site>(
    alloc: Global,
    opened: &Opened,
    shelf: &Shelf,
    shape: &Shape<'_>,
    key: &[u8],
    page: &mut Page,
    grouping: &mut Grouping,
    site: &mut S,
) -> Result<(), Fault>
    requires slot { shelf.now.series < series_slots }
    requires open { IsOpen S.tells opened.now (S.device site.old) }
    requires laid { IsLaidOut shape.now }
    ensures laid { IsLaidOut shape.now }
    ensures caused { Caused result (S.device site.old) (S.device site.new) }
    ensures said { IsTrue S.tells → (parts : List (List Element))
        → HaveParts shape.now shelf.now.series shelf.now.kind.now.columns (pages (S.device site.old).held)
        (places_of shelf.now.series opened.now.found.space) parts
        → SaysTexts grouping.old (flat_map (texts_of_elements key.now shelf.now.kind.now.columns) parts) grouping.new
        result (S.device site.old) (S.device site.new) }
{
    let mut texts = ElementTexts::of(alloc, key, *grouping);
    for place in opened.found.space.places(shelf.series) {
        say_page(&opened.store, place, shelf, shape, page, &mut texts, site)?;
    }
    *grouping = texts.grouping();
    Ok(())
}

// Says those on a page, in one piece.
fn say_page<S: Site>(
    store: &Store,
    place: &Place,
    shelf: &Shelf,
    shape: &Shape<'_>,
    page: &mut Page,
    texts: &mut ElementTexts<'_>,
    site: &mut S,
) -> Result<(), Fault>
    requires store { IsStoreOf S.tells store.now (S.device site.old) }
    requires element { IsElementPage place.now.page }
    requires below { place.now.page < store.now.pages }
    requires laid { IsLaidOut shape.now }
    ensures caused { Caused result (S.device site.old) (S.device site.new) }
    ensures said { IsTrue S.tells → (es : List Element)
        → HaveOnPlaces shape.now shelf.now.series shelf.now.kind.now.columns (pages (S.device site.old).held)
        (place.now ∷ []) es
        → SaysTexts texts.old.grouping (texts_of_elements texts.old.key.now shelf.now.kind.now.columns es)
        texts.new.grouping result (S.device site.old) (S.device site.new)
        × OnOk result (texts.new.key.now ≡ texts.old.key.now) }
{
    store.committed(site, place.page, page)?;
    texts.clear();
    let read: &Page = page;
    rows_of_pages(
        slice::from_ref(read),
        slice::from_ref(place),
        shelf,
        shape,
        Stamp::least(),
        Stamp::greatest(),
        texts,
    )?;
    site.say(texts.as_slice())?;
    Ok(())
}
