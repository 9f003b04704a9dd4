// What holds of what the bytes of a volume mean.
ghost use Rattle.ts_volume.specs.Laws.{BytesMeanOneCatalogue, LayoutsAreMeant, SamePagesMeanTheSame};
ghost use Rattle.ts_volume.specs.Laws.{NoVolumeMeansNothing};

/// Bytes mean one catalogue at most.
pub fn bytes_mean_one_catalogue()
    ensures { BytesMeanOneCatalogue }
{}

/// Bytes whose pages are laid out, whatever stands behind the heads of the free ones, mean the catalogue of that
/// layout.
pub fn layouts_are_meant()
    ensures { LayoutsAreMeant }
{}

/// Bytes with the same pages mean the same, however their journal has them.
pub fn same_pages_mean_the_same()
    ensures { SamePagesMeanTheSame }
{}

/// Bytes that are no volume's in number mean nothing, nor do those whose journal has a malformed record.
pub fn no_volume_means_nothing()
    ensures { NoVolumeMeansNothing }
{}
