// What is left of a view by others, and what one is that was opened.
ghost use Rattle.ts_view_catalogues.specs.Laws.{CommitsLeaveCatalogues, KeptImagesLeaveCatalogues};
ghost use Rattle.ts_view_catalogues.specs.Laws.{OpenedViewsAreNewest};

/// A commit of another leaves the catalogue of a view that has the old image of each page which the commit changes.
pub fn a_commit_leaves_the_catalogue_of_a_view()
    ensures { CommitsLeaveCatalogues }
{}

/// Keeping the image of a newest page leaves the catalogue of a view, also where there was no memory for it.
pub fn a_kept_image_leaves_the_catalogue_of_a_view()
    ensures { KeptImagesLeaveCatalogues }
{}

/// A view that is opened on the newest definitions, directory and free pages is the newest catalogue.
pub fn an_opened_view_is_the_newest()
    ensures { OpenedViewsAreNewest }
{}
