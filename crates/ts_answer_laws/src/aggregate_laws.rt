// What holds of AggregateRange, AggregateAll and AggregateBy, in the words of one who asks for them.
ghost use Rattle.ts_answer_laws.specs.AggregateLaws.{RangesAreFolded, OthersPlayNoPart, ContainersAreListed};
ghost use Rattle.ts_answer_laws.specs.AggregateLaws.{IntervalsAreListed, CountsAreOfElements};

/// AggregateRange says one row, with the first of its two stamps: what the list makes of the elements that aren't
/// hidden and stand between the two, in order of stamps.
pub fn a_range_is_one_row()
    ensures { RangesAreFolded }
{}

/// Hidden elements, and those that stand at other stamps, play no part in what AggregateRange says.
pub fn others_play_no_part_in_a_range()
    ensures { OthersPlayNoPart }
{}

/// AggregateAll lists the series of a container, and no other, in the order of their keys, each with what
/// AggregateRange says of it.
pub fn each_series_has_its_range()
    ensures { ContainersAreListed }
{}

/// AggregateBy lists the on intervals that start between its two stamps and hold an element that isn't hidden, and no
/// other, in order. Each has what AggregateRange says from its start to its last stamp, also where this lies behind the
/// second stamp.
pub fn a_row_is_of_an_interval()
    ensures { IntervalsAreListed }
{}

/// Where the elements that aren't hidden of an irregular series have values in a column, AggregateRange counts as many
/// as ClipGetCount.
pub fn a_count_is_of_elements()
    ensures { CountsAreOfElements }
{}
