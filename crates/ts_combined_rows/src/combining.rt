// The routines that combine series: two as one, and one against itself.
ghost use Rattle.std.specs.Prelude.{◌≡◌, ℕ, List, []};
ghost use Rattle.ts_command.specs.declared.command.Command.TheVariants.{Lag};
ghost use Rattle.ts_space.specs.Directory.{places_of};
ghost use Rattle.ts_answer.specs.View.{view, IsSeen};
ghost use Rattle.ts_answer.specs.CarriedOut.{ReadOut};
ghost use Rattle.ts_shelf.specs.Shelf.{IsShelf};
ghost use Rattle.ts_combined_rows.specs.Combining.{join_of, IsReadable};

use crate::moved::moved_rows;
use crate::pairs::{Pair, say_pair};
use crate::rows::MOST_ROWS;
use crate::sides::no_common_grid;
use std::alloc::Global;
use ts_answer::Stop;
use ts_base::{Key, Refusal, Reply, Stamp};
use ts_model::Defs;
use ts_page::{Page, Pages};
use ts_pattern::Junction;
use ts_say::{EntryLines, say_count};
use ts_shelf::shelf_of;
use ts_space::Space;

/// Says two series as one, from one stamp to another, both included: rows with the columns of both. Keys that no series
/// has are refused first; UnitMismatch and NotAligned where both are regular and have no grid in common, TooLarge where
/// the rows are more than 1000000; of these TooLarge alone is told by elements, which are read before, and some lines
/// stand in the reply by then. `page` is room to read one; the memory is for the elements of a few pages of each at a
/// time, and for their rows.
pub fn join<P: Pages>(
    alloc: Global,
    pages: &mut P,
    page: &mut Page,
    defs: &Defs,
    space: &Space,
    junction: Junction,
    first: &Key,
    second: &Key,
    from: Stamp,
    to: Stamp,
    out: &mut Reply,
) -> Result<(), Stop>
    requires seen { IsSeen P.tells (view defs.now.definitions space.now (P.contents pages.old)) }
    requires empty { out.old ≡ [] }
    ensures read { ReadOut P.tells (join_of junction first.now second.now from to) result out.new
        (view defs.now.definitions space.now (P.contents pages.old)) (P.contents pages.new) }
    ensures undisturbed { P.undisturbed pages.old pages.new }
{
    let one = shelf_of(pages, defs, space, first)?;
    let other = shelf_of(pages, defs, space, second)?;
    let pair = Pair {
        defs,
        space,
        junction,
        first: &one,
        second: &other,
    };
    join_on(alloc, pages, page, &pair, from, to, out)
}

// Says them, once both are known: where they have no grid in common, no element is read; else those of each that are
// needed are read and combined, a part of the range after the other.
fn join_on<P: Pages>(
    alloc: Global,
    pages: &mut P,
    page: &mut Page,
    pair: &Pair<'_>,
    from: Stamp,
    to: Stamp,
    out: &mut Reply,
) -> Result<(), Stop>
    requires first { IsReadable pair.now.first.now.1 pair.now.first.now.0.series
        pair.now.first.now.0.kind.now.columns pair.now.defs.now.definitions
        (places_of pair.now.first.now.0.series pair.now.space.now) (P.contents pages.old) }
    requires second { IsReadable pair.now.second.now.1 pair.now.second.now.0.series
        pair.now.second.now.0.kind.now.columns pair.now.defs.now.definitions
        (places_of pair.now.second.now.0.series pair.now.space.now) (P.contents pages.old) }
    requires empty { out.old ≡ [] }
    ensures read { (key key' : List ℕ)
        → IsShelf pair.now.first.now.1 pair.now.first.now.0.series pair.now.first.now.0.kind.now key
        pair.now.defs.now.definitions
        → IsShelf pair.now.second.now.1 pair.now.second.now.0.series pair.now.second.now.0.kind.now key'
        pair.now.defs.now.definitions
        → ReadOut P.tells (join_of pair.now.junction key key' from to) result out.new
        (view pair.now.defs.now.definitions pair.now.space.now (P.contents pages.old))
        (P.contents pages.new) }
    ensures undisturbed { P.undisturbed pages.old pages.new }
{
    if let Some(why) = no_common_grid(pair.defs, pair.first, pair.second) {
        return Err(Stop::Refused(why));
    }
    let count = say_pair(alloc, pages, page, pair, from, to, out)?;
    if count > MOST_ROWS {
        return Err(Stop::Refused(Refusal::TooLarge { rows: count }));
    }
    say_count(out, count)?;
    Ok(())
}

/// Says the elements of a regular series, each at the on start so many behind its own, up to the last element; a
/// negative number leads to earlier on starts. A key that no series has is refused first, then an irregular series as
/// NotRegular, whose pages aren't read; TooLarge where the rows are more than 1000000, and some lines stand in the
/// reply by then. `page` is room to read one; an element is said as soon as it is read, and none is kept.
pub fn lag<P: Pages>(
    pages: &mut P,
    page: &mut Page,
    defs: &Defs,
    space: &Space,
    key: &Key,
    by: i64,
    out: &mut Reply,
) -> Result<(), Stop>
    requires seen { IsSeen P.tells (view defs.now.definitions space.now (P.contents pages.old)) }
    requires empty { out.old ≡ [] }
    ensures read { ReadOut P.tells (Lag key.now by) result out.new
        (view defs.now.definitions space.now (P.contents pages.old))
        (P.contents pages.new) }
    ensures undisturbed { P.undisturbed pages.old pages.new }
{
    let (shelf, shape) = shelf_of(pages, defs, space, key)?;
    let mut lines = EntryLines::behind(out);
    let done = moved_rows(pages, page, space, &shelf, &shape, by, &mut lines)?;
    match done {
        Ok(count) => say_count(out, count)?,
        Err(refusal) => return Err(Stop::Refused(refusal)),
    }
    Ok(())
}
