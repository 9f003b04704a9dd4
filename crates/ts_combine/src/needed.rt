// Which elements of series are needed where these are combined.
ghost use Rattle.std.specs.Prelude.{◌≡◌, ℤ};
ghost use Rattle.ts_base.specs.Moment.{IsStamp};
ghost use Rattle.ts_offset.specs.declared.shape.Shape.TheVariants.{Regular};
ghost use Rattle.ts_pattern.specs.declared.junction.Junction.{Junction as TheJunction};
ghost use Rattle.ts_combine.specs.Combine.{Side as TheSide, joined};
ghost use Rattle.ts_combine.specs.Series.{IsSeries, IsEnough, side_within};
ghost use Rattle.ts_offset.specs.Shape.{IsLaidOut};

use ts_base::Stamp;
use ts_offset::{Grid, Shape};

/// A stamp from which on the elements of a series are enough where it is combined from a stamp on: on a grid the start
/// of the interval that holds this one, else this one itself.
pub fn first_needed(shape: &Shape<'_>, from: Stamp) -> Stamp
    ensures { IsEnough shape.now from result }
{
    match shape {
        Shape::Regular(grid) => held_or_own(grid, from),
        Shape::Irregular => from,
    }
}

// The start of the interval that a stamp addresses, or the stamp.
fn held_or_own(grid: &Grid<'_>, stamp: Stamp) -> Stamp
    ensures { IsEnough (Regular grid.now) stamp result }
{
    let Ok(offset) = grid.offset_of(stamp) else {
        return stamp;
    };
    match grid.stamp_of(offset) {
        Some(start) => start,
        None => stamp,
    }
}

/// Two series from one stamp to another are joined as their elements that are enough are, up to the last stamp; and
/// these are series too.
pub fn elements_outside_play_no_part()
    ensures joined { (junction : TheJunction) (a b : TheSide) (from to low other : ℤ) → IsStamp from → IsLaidOut a.shape
        → IsLaidOut b.shape
        → IsSeries a → IsSeries b → IsEnough a.shape from low → IsEnough b.shape from other
        → joined junction (side_within low to a) (side_within other to b) from to ≡ joined junction a b from to }
    ensures series { (s : TheSide) (low to : ℤ) → IsSeries s → IsSeries (side_within low to s) }
{}
