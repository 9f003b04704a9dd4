// What holds of what is kept in memory, whatever the pages hold.
ghost use Rattle.ts_layout.specs.MemoryLaws.{LayoutsAreKept, SameListsAreKept, SoundDefinitionsHaveLayouts};
ghost use Rattle.ts_layout.specs.MemoryLaws.{PlacesAreDropped, PlacesStayApart};

/// The places and the free pages of a layout are apart and are all pages; so what is kept of a layout keeps its rules.
pub fn a_layout_is_kept()
    ensures { LayoutsAreKept }
{}

/// What is kept stays kept with the same lists of places: memory that was taken plays no part.
pub fn the_same_lists_are_kept()
    ensures { SameListsAreKept }
{}

/// Definitions that keep the rules are those of a layout without elements.
pub fn sound_definitions_are_those_of_a_layout()
    ensures { SoundDefinitionsHaveLayouts }
{}

/// A series goes with its places, whose pages are free then.
pub fn a_series_is_dropped_with_its_places()
    ensures { PlacesAreDropped }
{}

/// What is kept keeps its rules where the places of one series change: its pages and the free ones are together the
/// same, and its container is charged its quota at most. Its places are such as an edit asks for.
pub fn places_and_free_pages_stay_apart()
    ensures { PlacesStayApart }
{}
