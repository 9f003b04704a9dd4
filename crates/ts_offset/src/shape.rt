use crate::Grid;

/// How the elements of a series lie: one at each on start of a grid at most, or one at each stamp at most.
#[derive(Drop)]
pub enum Shape<'a> {
    Regular(Grid<'a>),
    Irregular,
}
