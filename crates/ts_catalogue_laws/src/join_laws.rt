// What Union and Intersect list of two series of a catalogue.
ghost use Rattle.ts_catalogue_laws.specs.JoinLaws.{JoinsListBoth};

/// Union lists a row wherever one of two series has an element that is seen, Intersect where both have one: in the
/// order of stamps, with the values of the one before those of the other, NULL where one has none. Where one is
/// irregular it is by the stamps of elements. Of two grids it is by the starts of the smaller unit, from the later
/// calendar's start on: an element of the larger unit stands at each start of the smaller within it.
pub fn a_join_lists_the_values_of_both()
    ensures { JoinsListBoth }
{}
