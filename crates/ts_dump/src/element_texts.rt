// The statements of elements, made from the bytes of their cells.
ghost use Rattle.std.specs.Prelude.{◌≡◌, ◌+◌, ◌<◌, ◌≤◌, ◌^◌, ◌++◌, [], ◌∷◌, Option, OnOk, IfSome, length};
ghost use Rattle.ts_row.specs.Row.{Element, width_of};
ghost use Rattle.ts_entry.specs.Stamps.{HasStamp, IsNear};
ghost use Rattle.ts_entry.specs.Rows.{IsCellWith, row_if_any};
ghost use Rattle.ts_dump_texts.specs.Texts.{element_text, hiding_text};
ghost use Rattle.ts_dump_texts.specs.OfCatalogue.{texts_of_element};
ghost use Rattle.ts_dump.specs.Placed.{ArePut};
ghost use Rattle.ts_dump.specs.Elements.{texts_of_elements, one_of};

use crate::grouping::Grouping;
use crate::texts::{print_element, print_hiding};
use std::alloc::{AllocError, Global};
use ts_base::{Bytes, Stamp};
use ts_entry::{RowVisitor, Stamps};
use ts_row::{Row, RowType};

/// Puts the statements of the elements of a series that it is handed, each in a line: what puts each, and behind one
/// that is hidden what hides it.
#[derive(Drop)]
pub(crate) struct ElementTexts<'a> {
    key: &'a [u8],
    grouping: Grouping,
    text: Bytes,
}

impl<'a> ElementTexts<'a> {
    /// None so far, of the series of a key; the first one is to stand there.
    pub(crate) fn of(alloc: Global, key: &'a [u8], grouping: Grouping) -> ElementTexts<'a>
        ensures key { result.key.now ≡ key.now }
        ensures grouping { result.grouping ≡ grouping }
        ensures none { result.text ≡ [] }
    {
        ElementTexts {
            key,
            grouping,
            text: Bytes::new(alloc),
        }
    }

    /// Where the statement behind them stands.
    pub(crate) fn grouping(&self) -> Grouping
        ensures { result ≡ self.now.grouping }
    {
        self.grouping
    }

    /// Lets the lines go. The memory stays for the next ones, and these stand where they did.
    pub(crate) fn clear(&mut self)
        ensures key { self.new.key.now ≡ self.old.key.now }
        ensures grouping { self.new.grouping ≡ self.old.grouping }
        ensures none { self.new.text ≡ [] }
    {
        self.text.clear();
    }

    /// The lines.
    pub(crate) fn as_slice(&self) -> &[u8]
        ensures { result.now ≡ self.now.text }
    {
        self.text.as_slice()
    }

    // Takes the element in a cell, if one stands there.
    fn take(
        &mut self,
        kind: &RowType,
        cell: &[u8],
        front: usize,
        stamps: &Stamps<'_>,
        number: usize,
    ) -> Result<(), AllocError>
        requires some { 0 < front }
        requires front { front ≤ length cell.now }
        requires near { IsNear stamps.now }
        requires number { number < 2 ^ 63 }
        ensures key { self.new.key.now ≡ self.old.key.now }
        ensures took { OnOk result ((found : Option Element)
            → IsCellWith kind.now.columns front cell.now (row_if_any found)
            → IfSome found (λ e. HasStamp stamps.now number cell.now e.0)
            → ArePut self.old.grouping (texts_of_elements self.old.key.now kind.now.columns (one_of found))
            self.new.grouping self.old.text self.new.text) }
    {
        if cell[0] != 1 {
            return Ok(());
        }
        let Some(stamp) = stamps.stamp(number, cell) else {
            return Ok(());
        };
        let Some(row) = kind.decode(&cell[front..])? else {
            return Ok(());
        };
        print_lines(
            self.key,
            stamp,
            kind,
            &row,
            &mut self.grouping,
            &mut self.text,
        )
    }
}

// Puts the statement of an element in a line, and behind it what hides it where it is hidden.
fn print_lines(
    key: &[u8],
    stamp: Stamp,
    kind: &RowType,
    row: &Row,
    grouping: &mut Grouping,
    out: &mut Bytes,
) -> Result<(), AllocError>
    ensures { OnOk result (ArePut grouping.old (texts_of_element key.now kind.now.columns (stamp, row.now)) grouping.new
        out.old out.new) }
{
    print_visible(key, stamp, kind, row, grouping, out)?;
    if row.hidden() {
        return print_hidden(key, stamp, grouping, out);
    }
    Ok(())
}

// Puts what puts an element, in a line.
fn print_visible(
    key: &[u8],
    stamp: Stamp,
    kind: &RowType,
    row: &Row,
    grouping: &mut Grouping,
    out: &mut Bytes,
) -> Result<(), AllocError>
    ensures { OnOk result (ArePut grouping.old (element_text key.now stamp kind.now.columns row.now ∷ []) grouping.new
        out.old out.new) }
{
    grouping.begin(out)?;
    print_element(key, stamp, kind, row, out)?;
    out.push(b'\n')
}

// Puts what hides one, in a line.
fn print_hidden(
    key: &[u8],
    stamp: Stamp,
    grouping: &mut Grouping,
    out: &mut Bytes,
) -> Result<(), AllocError>
    ensures { OnOk result (ArePut grouping.old (hiding_text key.now stamp ∷ []) grouping.new out.old out.new) }
{
    grouping.begin(out)?;
    print_hiding(key, stamp, out)?;
    out.push(b'\n')
}

impl<'a> RowVisitor for ElementTexts<'a> {
    ghost use Rattle.ts_dump.specs.Elements.{TextsPut, none_taken, both_taken};

    ghost took = { λ columns v es w. TextsPut columns v.key.now v.grouping v.text es w.key.now w.grouping w.text };

    fn rows(
        &mut self,
        kind: &RowType,
        cells: &[u8],
        front: usize,
        stamps: &Stamps<'_>,
    ) -> Result<(), AllocError> {
        if cells.is_empty() {
            return Ok(());
        }
        let size = front + kind.width();
        let mut left = cells.len() / size;
        let mut rest = cells;
        let mut number = 0;
        while left > 0 {
            let (cell, behind) = rest.split_at(size);
            self.take(kind, cell, front, stamps, number)?;
            rest = behind;
            left -= 1;
            number += 1;
        }
        Ok(())
    }

    ghost none = { λ columns v. none_taken columns v.key.now v.grouping v.text };

    ghost then = { λ columns a b c es others p q.
        both_taken columns a.key.now b.key.now c.key.now a.grouping b.grouping c.grouping a.text b.text c.text es others
        p q };
}
