// What holds of the formats of volumes.
ghost use Rattle.ts_layout.specs.FormatLaws.{CataloguesKeepFormats, VolumesTakeNewestFormat, NewestFormatHasAll};
ghost use Rattle.ts_layout.specs.FormatLaws.{EditedElementsKeepFormats};

/// What pages mean keeps its format: in the old one no decimal is long, and no element is hidden.
pub fn a_catalogue_keeps_its_format()
    ensures { CataloguesKeepFormats }
{}

/// A volume takes the newest format by its first page alone: nothing else changes, and its catalogue is the same.
pub fn a_volume_takes_the_newest_format()
    ensures { VolumesTakeNewestFormat }
{}

/// Row types without a long decimal and elements of which none is hidden are of every format; the newest has all.
pub fn the_newest_format_has_all()
    ensures { NewestFormatHasAll }
{}

/// Elements on a page are of the format; and elements that hide one only where those do are so too.
pub fn the_elements_of_a_page_are_of_the_format()
    ensures { EditedElementsKeepFormats }
{}
