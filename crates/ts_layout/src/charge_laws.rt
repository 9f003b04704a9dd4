// What holds of charges and quotas.
ghost use Rattle.ts_layout.specs.ChargeLaws.{QuotasLeaveRoom, ChargesFollowPlaces, QuotasFollowPlaces};

/// Where no container is charged more than its quota, the pages that are free and those that a series has are as many
/// as it may be charged beside the other series of its container.
pub fn the_quotas_leave_room()
    ensures { QuotasLeaveRoom }
{}

/// What containers are charged by the directory is what they are charged by the pages, and by their names in the
/// catalogue; and what changes with the places of one series.
pub fn charges_follow_the_directory()
    ensures { ChargesFollowPlaces }
{}

/// The places of a series may change where its container is then charged its quota at most.
pub fn quotas_follow_the_directory()
    ensures { QuotasFollowPlaces }
{}
