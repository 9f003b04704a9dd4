// What holds of the first bad page of a volume.
ghost use Rattle.ts_volume.specs.FirstBadLaws.{ThereIsOneFirstBadPage, FirstBadPagesAreWithin, BadPagesMeanNothing};

/// A volume has one first bad page at most.
pub fn there_is_one_first_bad_page()
    ensures { ThereIsOneFirstBadPage }
{}

/// The first bad page is one of the volume's pages.
pub fn first_bad_pages_are_within()
    ensures { FirstBadPagesAreWithin }
{}

/// Where there is a first bad page, no catalogue is meant.
pub fn bad_pages_mean_nothing()
    ensures { BadPagesMeanNothing }
{}
