// What holds of free pages, and of the places of other series.
ghost use Rattle.ts_layout.specs.FreeLaws.{PagesAreFreeOrPlaced, OtherPlacesStay};

/// Each element page is free, or the place of one series.
pub fn pages_are_free_or_placed()
    ensures { PagesAreFreeOrPlaced }
{}

/// A directory of which one list changes has the other places as before.
pub fn the_places_of_other_series_stay()
    ensures { OtherPlacesStay }
{}
