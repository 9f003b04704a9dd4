// The elements of a regular series at the on starts so many behind their own.
ghost use Rattle.std.specs.Prelude.{◌≡◌, ◌<◌, ◌≤◌, ◌^◌, OnOk, IfOk, Some, length, map};
ghost use Rattle.ts_row.specs.Row.{Row as TheRow, width_of, seen};
ghost use Rattle.ts_space.specs.Place.{count_of};
ghost use Rattle.ts_space.specs.Directory.{places_of};
ghost use Rattle.ts_irregular.specs.Call.{Reads};
ghost use Rattle.ts_offset.specs.declared.shape.Shape.TheVariants.{Regular};
ghost use Rattle.ts_entry.specs.Entry.{AreSeenBytes, filled};
ghost use Rattle.ts_entry.specs.Handed.{AreHanded};
ghost use Rattle.ts_clip.specs.Series.{ArePlaces, IsTold};
ghost use Rattle.ts_offset.specs.Shape.{IsLaidOut};
ghost use Rattle.ts_combine.specs.Combine.{lagged};
ghost use Rattle.ts_combine.specs.Moved.{last_offset, start_behind};
ghost use Rattle.ts_model.specs.Definitions.{series_slots};
ghost use Rattle.ts_combined_rows.specs.Moves.{IsMovedOn, mover};

use crate::placed::{first_placed, last_placed};
use crate::rows::MOST_ROWS;
use std::alloc::AllocError;
use ts_base::{Refusal, Stamp, StoreFault};
use ts_clip::{elements, last_elem};
use ts_combine::start_behind;
use ts_entry::EntryVisitor;
use ts_offset::{Grid, Shape};
use ts_page::{Page, Pages};
use ts_row::{RowType, Shelf};
use ts_space::Space;

/// Hands on each element that it takes at the on start so many behind its own, where that lies from the origin on, up
/// to a last offset. Those beyond the most rows of a reply are counted alone.
#[derive(Drop)]
struct MovedRows<'a, V> {
    grid: &'a Grid<'a>,
    by: i64,
    last: u64,
    out: &'a mut V,
    /// How many there were.
    count: u64,
}

impl<'a, V: EntryVisitor> MovedRows<'a, V> {
    /// None so far.
    fn new(grid: &'a Grid<'a>, by: i64, last: u64, out: &'a mut V) -> MovedRows<'a, V>
        ensures same { result.out.ghost_name ≡ out.entry.ghost_name }
        ensures none { result.out.now ≡ out.old }
        ensures state { mover result.grid.now result.by result.last result.count ≡ mover grid.now by last 0 }
    {
        MovedRows {
            grid,
            by,
            last,
            out,
            count: 0,
        }
    }

    // Counts a row at an on start, and hands it on unless they are too many.
    fn hand_on(&mut self, kind: &RowType, start: Stamp, row: &[u8]) -> Result<(), AllocError>
        requires size { length row.now ≡ width_of kind.now.columns }
        ensures same { self.new.out.ghost_name ≡ self.old.out.ghost_name }
        ensures handed { OnOk result ((r : TheRow) → AreSeenBytes kind.now.columns row.now r
            → IsMovedOn (V.took kind.now.columns)
            (mover self.old.grid.now self.old.by self.old.last self.old.count) self.old.out.now (start, Some r)
            (mover self.new.grid.now self.new.by self.new.last self.new.count) self.new.out.now) }
    {
        self.count = self.count.saturating_add(1);
        if self.count > MOST_ROWS {
            return Ok(());
        }
        self.out.element(kind, start, row)
    }
}

impl<'a, V: EntryVisitor> EntryVisitor for MovedRows<'a, V> {
    ghost use Rattle.std.specs.Prelude.{◌≡◌};
    ghost use Rattle.std.proofs.Common.{refl, ◌∙◌};
    ghost use Rattle.ts_entry.specs.Entry.{elements_of};
    ghost use Rattle.ts_combined_rows.specs.Moves.{Moves, mover};
    ghost use Rattle.ts_combined_rows.specs.MoveLaws.{moves_none, moves_then};

    ghost took = { λ columns v es w. (w.out.ghost_name ≡ v.out.ghost_name)
        × Moves (V.took columns) (mover v.grid.now v.by v.last v.count) v.out.now (elements_of es)
        (mover w.grid.now w.by w.last w.count) w.out.now };

    fn element(&mut self, kind: &RowType, stamp: Stamp, row: &[u8]) -> Result<(), AllocError> {
        match start_behind(self.grid, self.by, self.last, stamp) {
            Some(start) => self.hand_on(kind, start, row),
            None => Ok(()),
        }
    }

    fn blank(&mut self, _kind: &RowType, _stamp: Stamp) -> Result<(), AllocError> {
        Ok(())
    }

    ghost none = { λ columns v. (
      refl,
      moves_none (V.took columns) (V.none columns) (mover v.grid.now v.by v.last v.count) v.out.now,
    ) };

    ghost then = { λ columns a b c es fs p q. (
      q.0 ∙ p.0,
      moves_then (V.took columns) (V.then columns) (mover a.grid.now a.by a.last a.count)
          (mover b.grid.now b.by b.last b.count) (mover c.grid.now c.by c.last c.count) a.out.now b.out.now c.out.now
          es fs p.1 q.1,
    ) };
}

/// Hands the elements of a regular series to a visitor, those that aren't hidden, each at the on start so many behind
/// its own, up to the last element, and tells how many they are; NotRegular of an irregular series, of which no page
/// is read; TooLarge where they are more than 1000000, and then some of them were handed on. All pages stay; `page` is
/// room to read one.
pub(crate) fn moved_rows<P: Pages, V: EntryVisitor>(
    pages: &mut P,
    page: &mut Page,
    space: &Space,
    shelf: &Shelf,
    shape: &Shape<'_>,
    by: i64,
    visitor: &mut V,
) -> Result<Result<u64, Refusal>, StoreFault>
    requires slot { shelf.now.series < series_slots }
    requires laid { IsLaidOut shape.now }
    requires places { ArePlaces shape.now shelf.now.kind.now.columns (P.contents pages.old)
        (places_of shelf.now.series space.now) }
    requires countable { count_of (places_of shelf.now.series space.now) < 2 ^ 32 }
    ensures read { IfOk result (λ done. IsTold P.tells shape.now shelf.now.series shelf.now.kind.now.columns
        (places_of shelf.now.series space.now) (P.contents pages.old)
        (λ es. AreHanded (λ rows. V.took shelf.now.kind.now.columns visitor.old (map filled rows) visitor.new)
        (lagged shape.now by (seen es)) done)) }
    ensures call { Reads P.tells result (P.contents pages.old) (P.contents pages.new) }
    ensures undisturbed { P.undisturbed pages.old pages.new }
{
    let Shape::Regular(grid) = shape else {
        return Ok(Err(Refusal::NotRegular));
    };
    let last = last_offset(pages, page, space, shelf, shape, grid)?;
    let done = moved_up_to(pages, page, space, shelf, shape, grid, by, last, visitor)?;
    Ok(done)
}

// The offset of the last element that isn't hidden.
fn last_offset<P: Pages>(
    pages: &mut P,
    page: &mut Page,
    space: &Space,
    shelf: &Shelf,
    shape: &Shape<'_>,
    grid: &Grid<'_>,
) -> Result<u64, StoreFault>
    requires slot { shelf.now.series < series_slots }
    requires laid { IsLaidOut shape.now }
    requires places { ArePlaces shape.now shelf.now.kind.now.columns (P.contents pages.old)
        (places_of shelf.now.series space.now) }
    ensures last { IfOk result (λ last. IsTold P.tells shape.now shelf.now.series shelf.now.kind.now.columns
        (places_of shelf.now.series space.now) (P.contents pages.old)
        (λ es. last ≡ last_offset grid.now (seen es))) }
    ensures call { Reads P.tells result (P.contents pages.old) (P.contents pages.new) }
    ensures undisturbed { P.undisturbed pages.old pages.new }
{
    match last_elem(pages, page, space, shelf, shape)? {
        Some((stamp, _row)) => Ok(grid.offset_from(stamp)),
        None => Ok(0),
    }
}

// The same, where the last element's offset is known: those alone are read that have a place.
fn moved_up_to<P: Pages, V: EntryVisitor>(
    pages: &mut P,
    page: &mut Page,
    space: &Space,
    shelf: &Shelf,
    shape: &Shape<'_>,
    grid: &Grid<'_>,
    by: i64,
    last: u64,
    visitor: &mut V,
) -> Result<Result<u64, Refusal>, StoreFault>
    requires slot { shelf.now.series < series_slots }
    requires laid { IsLaidOut shape.now }
    requires regular { shape.now ≡ Regular grid.now }
    requires places { ArePlaces shape.now shelf.now.kind.now.columns (P.contents pages.old)
        (places_of shelf.now.series space.now) }
    requires countable { count_of (places_of shelf.now.series space.now) < 2 ^ 32 }
    ensures read { IfOk result (λ done. IsTold P.tells shape.now shelf.now.series shelf.now.kind.now.columns
        (places_of shelf.now.series space.now) (P.contents pages.old)
        (λ es. last ≡ last_offset grid.now (seen es)
        → AreHanded (λ rows. V.took shelf.now.kind.now.columns visitor.old (map filled rows) visitor.new)
        (lagged shape.now by (seen es)) done)) }
    ensures call { Reads P.tells result (P.contents pages.old) (P.contents pages.new) }
    ensures undisturbed { P.undisturbed pages.old pages.new }
{
    // They rise.
    let _places = space.places(shelf.series);
    let Some(from) = first_placed(grid, by) else {
        return Ok(Ok(0));
    };
    let Some(to) = last_placed(grid, by, last) else {
        return Ok(Ok(0));
    };
    let mut rows = MovedRows::new(grid, by, last, visitor);
    elements(pages, page, space, shelf, shape, from, to, &mut rows)?;
    let count = rows.count;
    if count > MOST_ROWS {
        return Ok(Err(Refusal::TooLarge { rows: count }));
    }
    Ok(Ok(count))
}
