// What holds of every series on its pages.
ghost use Rattle.ts_sheets.specs.Laws.{ChainsAreInOrder, ChainsHaveFewPages, GridsHaveFewPages, StartsRise};

/// The elements of all pages of a chain, one page after the other, have rising stamps.
pub fn chains_are_in_order()
    ensures { ChainsAreInOrder }
{}

/// A chain has no more pages than a series with its elements is charged.
pub fn chains_have_few_pages()
    ensures { ChainsHaveFewPages }
{}

/// The pages of a regular series, each with an element, are as many as a series with its elements is charged.
pub fn grids_have_few_pages()
    ensures { GridsHaveFewPages }
{}

/// Of two offsets the greater one has the later start.
pub fn starts_rise()
    ensures { StartsRise }
{}
