// The routines that edit the element at a stamp.
ghost use Rattle.std.specs.Prelude.{◌≡◌, ◌<◌, ℕ, List, [], IsTrue, IfOk, Some};
ghost use Rattle.ts_row.specs.declared.value.Literal.{Literal as TheLiteral};
ghost use Rattle.ts_row.specs.Row.{fits};
ghost use Rattle.ts_space.specs.Directory.{places_of};
ghost use Rattle.ts_space.specs.Place.{IsRising};
ghost use Rattle.ts_cells.specs.IrregularPage.{page_room};
ghost use Rattle.ts_model.specs.Definitions.{series_slots};
ghost use Rattle.ts_layout.specs.Meaning.{heading_at, shape_at};
ghost use Rattle.ts_container.specs.KeptCharges.{AreCharges};
ghost use Rattle.ts_answer.specs.View.{view, IsSeen};
ghost use Rattle.ts_answer.specs.CarriedOut.{CarriedOut};
ghost use Rattle.ts_answer.specs.Answer.{a_row};
ghost use Rattle.ts_answer.specs.Tried.{IsTried};
ghost use Rattle.ts_elements.specs.Elements.{HasRow, edit_of};
ghost use Rattle.ts_elements.specs.Stamps.{ArePlaces};
ghost use Rattle.ts_offset.specs.Shape.{IsLaidOut};

use crate::calls::edit_in;
use crate::room::{budget_of, refusal_of, room_in};
use ts_answer::{Effect, Stop};
use ts_base::{Key, Reply, Stamp, Trouble};
use ts_command::Literals;
use ts_container::Charges;
use ts_model::Defs;
use ts_offset::Shape;
use ts_page::{Page, Pages};
use ts_row::{Row, RowType, Shelf};
use ts_say::say_stamp;
use ts_series::{EditKind, Edited};
use ts_shelf::shelf_of;
use ts_space::Space;

/// Edits the element that a stamp of a series addresses. A key that no series has is refused, then literals that are no
/// row, then a stamp that a regular series has no place for, then what the kind of edit refuses, and at last an element
/// that would be added beyond the quota of the container. `page` is room to read one.
pub fn edit_element<P: Pages>(
    pages: &mut P,
    page: &mut Page,
    defs: &Defs,
    space: &Space,
    charges: &Charges,
    how: EditKind,
    key: &Key,
    stamp: Stamp,
    values: &Literals,
    out: &mut Reply,
) -> Result<Effect, Stop>
    requires seen { IsSeen P.tells (view defs.now.definitions space.now (P.contents pages.old)) }
    requires charged { AreCharges charges.now defs.now.definitions space.now }
    requires empty { out.old ≡ [] }
    ensures carried { CarriedOut P.tells (edit_of how key.now stamp values.now) result out.new
        (view defs.now.definitions space.now (P.contents pages.old)) (P.contents pages.new) }
    ensures undisturbed { P.undisturbed pages.old pages.new }
{
    let (shelf, shape) = shelf_of(pages, defs, space, key)?;
    let row = row_for(shelf.kind, values)?;
    edit_on(
        pages, page, defs, space, charges, &shelf, &shape, how, stamp, &row, out,
    )
}

// The row of literals for some columns, or the first column that misfits.
fn row_for(kind: &RowType, values: &Literals) -> Result<Row, Trouble>
    ensures tried { IsTried result (a_row kind.now.columns values.now) (λ row value. value ≡ row) }
    ensures fits { IfOk result (λ row. IsTrue (fits kind.now.columns row)) }
{
    kind.row_of(values.as_slice())
}

// Edits it, once the series and a row for it are known.
fn edit_on<P: Pages>(
    pages: &mut P,
    page: &mut Page,
    defs: &Defs,
    space: &Space,
    charges: &Charges,
    shelf: &Shelf,
    shape: &Shape<'_>,
    how: EditKind,
    stamp: Stamp,
    row: &Row,
    out: &mut Reply,
) -> Result<Effect, Stop>
    requires seen { IsSeen P.tells (view defs.now.definitions space.now (P.contents pages.old)) }
    requires charged { AreCharges charges.now defs.now.definitions space.now }
    requires slot { shelf.now.series < series_slots }
    requires columns { heading_at defs.now.definitions shelf.now.series ≡ Some shelf.now.kind.now }
    requires lies { shape_at defs.now.definitions shelf.now.series ≡ Some shape.now }
    requires laid { IsLaidOut shape.now }
    requires some { 0 < page_room shelf.now.kind.now.columns }
    requires rising { IsRising (places_of shelf.now.series space.now) }
    requires places { ArePlaces shape.now shelf.now.kind.now.columns (P.contents pages.old)
        (places_of shelf.now.series space.now) }
    requires fits { IsTrue (fits shelf.now.kind.now.columns row.now) }
    requires empty { out.old ≡ [] }
    ensures carried { (key : List ℕ) (literals : List TheLiteral)
        → HasRow key literals shape.now shelf.now.series shelf.now.kind.now row.now defs.now.definitions
        → CarriedOut P.tells (edit_of how key stamp literals) result out.new
        (view defs.now.definitions space.now (P.contents pages.old)) (P.contents pages.new) }
    ensures undisturbed { P.undisturbed pages.old pages.new }
{
    let budget = budget_of(defs, space, charges, shelf);
    let room = room_in(pages, space, shelf.series, budget);
    match edit_in(pages, page, space, shelf, shape, how, stamp, row, room)? {
        Edited::Put { stamp, moved } => {
            say_stamp(out, stamp)?;
            Ok(Effect::Places {
                slot: shelf.series,
                moved,
            })
        }
        Edited::Replaced => {
            say_stamp(out, stamp)?;
            Ok(Effect::Pages)
        }
        Edited::Refused(refusal) => Err(Stop::Refused(refusal)),
        Edited::Full => Err(Stop::Refused(refusal_of(budget, space, shelf, shape))),
    }
}
