// The routines that read entries of a series, or count them.
ghost use Rattle.std.specs.Prelude.{◌≡◌, ◌<◌, [], IfOk};
ghost use Rattle.ts_command.specs.declared.command.Command.TheVariants.{ClipGetCount};
ghost use Rattle.ts_space.specs.Directory.{places_of};
ghost use Rattle.ts_irregular.specs.Call.{Reads};
ghost use Rattle.ts_entry.specs.Entry.{reading};
ghost use Rattle.ts_clip.specs.Call.{IsRead, IsShown};
ghost use Rattle.ts_clip.specs.Series.{ArePlaces, IsTold};
ghost use Rattle.ts_offset.specs.Shape.{IsLaidOut};
ghost use Rattle.ts_model.specs.Definitions.{series_slots};
ghost use Rattle.ts_answer.specs.View.{view, IsSeen};
ghost use Rattle.ts_answer.specs.CarriedOut.{ReadOut};
ghost use Rattle.ts_hidden.specs.Hidden.{IsSeenShown};
ghost use Rattle.ts_series_rows.specs.Readings.{reading_of, chosen};

use ts_answer::Stop;
use ts_base::{Key, Refusal, Reply, Stamp, StoreFault};
use ts_clip::{clip, clip_count, clip_len_shown, nth_shown};
use ts_entry::EntryVisitor;
use ts_model::Defs;
use ts_offset::Shape;
use ts_page::{Page, Pages};
use ts_row::Shelf;
use ts_say::{EntryLines, say_count};
use ts_shelf::shelf_of;
use ts_space::Space;

/// Which entries of a series are read.
#[derive(Clone, Copy, Debug)]
pub enum Choice {
    /// The one of this number, counted from 0.
    Number(i64),
    /// Those from one stamp to another, both included.
    Range(Stamp, Stamp),
    /// The first ones from a stamp on, so many; or, where their number is negative, the last ones up to it.
    Count(Stamp, i64),
}

/// Says the chosen entries of a series, and how many they are; TooLarge where those of a range are more than 1000000.
/// `shown` may tell that no element of the series is hidden: then of an irregular one the entry of a number is read from
/// its page alone. `page` is room to read one.
pub fn read_entries<P: Pages>(
    pages: &mut P,
    page: &mut Page,
    defs: &Defs,
    space: &Space,
    key: &Key,
    choice: Choice,
    shown: bool,
    out: &mut Reply,
) -> Result<(), Stop>
    requires seen { IsSeen P.tells (view defs.now.definitions space.now (P.contents pages.old)) }
    requires shown { IsSeenShown shown P.tells key.now
        (view defs.now.definitions space.now (P.contents pages.old)) }
    requires empty { out.old ≡ [] }
    ensures read { ReadOut P.tells (reading_of choice key.now) result out.new
        (view defs.now.definitions space.now (P.contents pages.old)) (P.contents pages.new) }
    ensures undisturbed { P.undisturbed pages.old pages.new }
{
    let (shelf, shape) = shelf_of(pages, defs, space, key)?;
    let mut lines = EntryLines::behind(out);
    let done = entries_in(
        pages, page, space, &shelf, &shape, choice, shown, &mut lines,
    )?;
    match done {
        Ok(count) => say_count(out, count)?,
        Err(refusal) => return Err(Stop::Refused(refusal)),
    }
    Ok(())
}

// Hands the chosen entries to a visitor, and tells how many they are; or why they are refused, and then none is handed
// on. `shown` may tell that no element of the series is hidden, and is right. All pages stay; `page` is room to read
// one.
fn entries_in<P: Pages, V: EntryVisitor>(
    pages: &mut P,
    page: &mut Page,
    space: &Space,
    shelf: &Shelf,
    shape: &Shape<'_>,
    choice: Choice,
    shown: bool,
    visitor: &mut V,
) -> Result<Result<u64, Refusal>, StoreFault>
    requires slot { shelf.now.series < series_slots }
    requires laid { IsLaidOut shape.now }
    requires places { ArePlaces shape.now shelf.now.kind.now.columns (P.contents pages.old)
        (places_of shelf.now.series space.now) }
    ensures read { IfOk result (λ done. IsTold P.tells shape.now shelf.now.series shelf.now.kind.now.columns
        (places_of shelf.now.series space.now) (P.contents pages.old)
        (λ es. IsShown shown es
        → IsRead (λ entries. V.took shelf.now.kind.now.columns visitor.old entries visitor.new)
        (chosen choice (reading shape.now es)) done)) }
    ensures call { Reads P.tells result (P.contents pages.old) (P.contents pages.new) }
    ensures undisturbed { P.undisturbed pages.old pages.new }
{
    match choice {
        Choice::Number(index) => {
            let n = index.unsigned_abs();
            let count = nth_shown(pages, page, space, shelf, shape, shown, n, visitor)?;
            Ok(Ok(count))
        }
        Choice::Range(from, to) => clip(pages, page, space, shelf, shape, from, to, visitor),
        Choice::Count(stamp, n) => {
            let count = clip_count(pages, page, space, shelf, shape, stamp, n, visitor)?;
            Ok(Ok(count))
        }
    }
}

/// Says how many entries of a series stand from one stamp to another, both included. `shown` may tell that no element
/// of the series is hidden: then of an irregular one the two pages at the ends are read alone. `page` is room to read
/// one.
pub fn count_clip<P: Pages>(
    pages: &mut P,
    page: &mut Page,
    defs: &Defs,
    space: &Space,
    key: &Key,
    from: Stamp,
    to: Stamp,
    shown: bool,
    out: &mut Reply,
) -> Result<(), Stop>
    requires seen { IsSeen P.tells (view defs.now.definitions space.now (P.contents pages.old)) }
    requires shown { IsSeenShown shown P.tells key.now
        (view defs.now.definitions space.now (P.contents pages.old)) }
    requires empty { out.old ≡ [] }
    ensures read { ReadOut P.tells (ClipGetCount key.now from to) result out.new
        (view defs.now.definitions space.now (P.contents pages.old)) (P.contents pages.new) }
    ensures undisturbed { P.undisturbed pages.old pages.new }
{
    let (shelf, shape) = shelf_of(pages, defs, space, key)?;
    let count = clip_len_shown(pages, page, space, &shelf, &shape, shown, from, to)?;
    say_count(out, count)?;
    Ok(())
}
