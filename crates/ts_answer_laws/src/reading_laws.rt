// What holds of Clip, ClipGetCount, ClipCount, GetFirstElem, GetLastElem, GetNthElem, Union, Intersect and Lag, in the
// words of one who asks for them.
ghost use Rattle.ts_answer_laws.specs.ReadingLaws.{ClipsListEntries, CountsAreOfClips, CountedClipsAreParts};
ghost use Rattle.ts_answer_laws.specs.ReadingLaws.{EndsAreListed, NumbersAreOffsets, JoinsAreByStamps};
ghost use Rattle.ts_answer_laws.specs.ReadingLaws.{IntersectionsArePartOfUnions, LagsAreByOffsets};

/// What Clip lists of a series from one stamp to another: its elements that aren't hidden, and on a grid an entry at
/// each other on start from the origin up to the last of them, the stamps strictly rising.
pub fn a_clip_lists_the_entries_between()
    ensures { ClipsListEntries }
{}

/// The number that ClipGetCount says is that of the entries that Clip lists, also where these are too many for a reply.
pub fn a_count_is_of_what_is_listed()
    ensures { CountsAreOfClips }
{}

/// ClipCount lists the first of the entries that Clip lists from a stamp to the end of a series, or the last of those
/// from its beginning to the stamp: so many, or all where there are fewer.
pub fn a_counted_clip_is_part_of_a_clip()
    ensures { CountedClipsAreParts }
{}

/// Before the first element that is listed none is seen, and none after the last; nothing is listed where none is seen.
pub fn an_end_has_none_beyond()
    ensures { EndsAreListed }
{}

/// The entry of a number in a regular series stands at the on start of this offset and has the element there that isn't
/// hidden, if there is one. It is listed exactly where such an element stands there or later.
pub fn a_number_is_an_offset()
    ensures { NumbersAreOffsets }
{}

/// Where one of two series at least is irregular, their union has a row at exactly the stamps between the two given
/// ones at which one of them has an element that is seen, and their intersection where both have one. What the rows
/// have isn't said.
pub fn a_join_is_by_stamps()
    ensures { JoinsAreByStamps }
{}

/// The rows that Intersect lists are among those that Union lists with the same arguments.
pub fn an_intersection_is_part_of_the_union()
    ensures { IntersectionsArePartOfUnions }
{}

/// What Lag lists at an on start is the element that stands so many on starts earlier, and each such element is listed,
/// up to the last one's stamp and none behind it, the stamps strictly rising.
pub fn a_lag_is_by_offsets()
    ensures { LagsAreByOffsets }
{}
