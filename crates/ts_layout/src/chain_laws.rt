// What holds of the pages of a series, of a series that gets other pages, and of one that is dropped with its pages.
ghost use Rattle.ts_layout.specs.ChainLaws.{SeriesAreOnPages, PagesAreSheets, ElementsAreMaps, SeriesAreRewritten};
ghost use Rattle.ts_layout.specs.ChainLaws.{HeldPagesAreFilled, RegularElementsAreOnStarts, SeriesAreDropped};

/// The pages of a series, in the order of its places, have all its elements: those of an irregular series are a chain,
/// and those of a regular one have cells at the offsets of its grid.
pub fn a_series_is_on_its_pages()
    ensures { SeriesAreOnPages }
{}

/// A chain, and pages with cells on a grid, are sheets with the same elements at stamps.
pub fn pages_are_sheets()
    ensures { PagesAreSheets }
{}

/// Elements in order are a map by their stamps: searched and edited there as in the list.
pub fn elements_are_a_map_by_stamps()
    ensures { ElementsAreMaps }
{}

/// The pages of one series get other sheets, and its others are free: what the pages hold then, what is kept of them,
/// and which catalogue they mean.
pub fn a_series_is_rewritten()
    ensures { SeriesAreRewritten }
{}

/// Pages that hold a layout hold elements of defined series alone, in order.
pub fn pages_that_hold_are_filled()
    ensures { HeldPagesAreFilled }
{}

/// In a layout that is filled, each element of a regular series stands at an on start of its grid.
pub fn a_regular_element_is_on_its_grid()
    ensures { RegularElementsAreOnStarts }
{}

/// A series is dropped with its pages.
pub fn a_series_is_dropped_with_its_pages()
    ensures { SeriesAreDropped }
{}
