// The pages of a series in memory.
use ts_offset::Shape;
use ts_row::Shelf;
use ts_space::Place;

/// Pages of one series among those that were read into a list, pages of many series: those that a range touches, in the
/// order of their places, from an index of the list on.
#[derive(Drop)]
pub struct Stack<'a> {
    pub shelf: Shelf<'a>,
    pub shape: Shape<'a>,
    pub places: &'a [Place],
    pub first: usize,
}
