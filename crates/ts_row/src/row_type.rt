ghost use Rattle.std.specs.Prelude.{◌≡◌, ◌↔◌, ◌≤◌, ◌++◌, IsTrue, IfOk, IfSome, IfErr, OnOk, OnErr, MatchResult, Ok};
ghost use Rattle.std.specs.Prelude.{None, length};
ghost use Rattle.ts_row.specs.Row.{is_row_type, width_of, has_long_decimal, bad_column, IsBadRowType, row_of};
ghost use Rattle.ts_row.specs.Row.{IsRowTrouble, fits, row_text};
ghost use Rattle.ts_row.specs.Encoding.{row_bytes, IsMeaning, AreRowBytes, IsMarkOf, Marks};

use crate::decoding::decode;
use crate::encoding::encode_values;
use crate::judging::is_row;
use crate::literal::read_values;
use crate::mark::{is_mark, remarked};
use crate::print::print_values;
use crate::rules::{first_bad, width_of};
use crate::{Column, Literal, Row};
use std::alloc::{AllocError, Global};
use std::marker::Model;
use ts_base::{Bytes, Name, Refusal, Trouble};

/// The columns of a container's elements: that of the stamp, and the value columns.
#[derive(Debug, Drop)]
pub struct RowType {
    stamp: Name,
    columns: Vec<Column>,
    width: usize,
}

impl Model for RowType {
    ghost use Rattle.std.specs.Prelude.{◌≡◌, IsTrue};
    ghost use Rattle.ts_row.specs.Row.{Heading, is_row_type, width_of};

    ghost Value = { Heading };

    ghost view = { λ r. record { stamp = r.stamp; columns = r.columns.items } };

    ghost invariant = { λ r. IsTrue (is_row_type r.stamp r.columns.items) × (r.width ≡ width_of r.columns.items) };
}

impl RowType {
    /// The row type of these columns; else the first that breaks a rule. It takes no memory.
    #[tactic(auto, using(crate::proofs::RowTypeLemmas::good))]
    pub fn make(_alloc: Global, stamp: Name, columns: Vec<Column>) -> Result<RowType, Trouble>
        ensures ok { IfOk result (λ made. made ≡ record { stamp = stamp; columns = columns.items }) }
        ensures rules { OnOk result (IsTrue (is_row_type stamp columns.items)) }
        ensures cause { MatchResult result (λ _. bad_column stamp columns.items ≡ None)
            (IsBadRowType stamp columns.items) }
    {
        match first_bad(stamp.as_slice(), columns.as_slice()) {
            Some(column) => Err(Trouble::Refused(Refusal::BadRowType { column })),
            None => {
                let width = width_of(columns.as_slice());
                Ok(RowType {
                    stamp,
                    columns,
                    width,
                })
            }
        }
    }

    /// The name of the stamp's column.
    pub fn stamp(&self) -> &Name
        ensures { result.now ≡ self.now.stamp }
    {
        &self.stamp
    }

    /// The value columns.
    pub fn columns(&self) -> &[Column]
        ensures value { result.now ≡ self.now.columns }
        ensures rules { IsTrue (is_row_type self.now.stamp self.now.columns) }
    {
        self.columns.as_slice()
    }

    /// The bytes of a row.
    pub fn width(&self) -> usize
        ensures value { result ≡ width_of self.now.columns }
        ensures bound { result ≤ 1000 }
    {
        self.width
    }

    /// Whether some column is a decimal of over 18 digits.
    pub fn has_long_decimal(&self) -> bool
        ensures { result ≡ has_long_decimal self.now.columns }
    {
        self.columns.iter().any(|column| column.kind.is_long())
    }

    pub fn copy(&self) -> Result<Self, AllocError>
        ensures { IfOk result (λ made. made ≡ self.now) }
    {
        let stamp = self.stamp.copy()?;
        let columns = copy_columns(*self.columns.allocator(), self.columns.as_slice())?;
        Ok(RowType {
            stamp,
            columns,
            width: self.width,
        })
    }

    /// The visible row that literals give; else the first column that misfits, is missing or is too many.
    #[tactic(auto, using(crate::proofs::RowLemmas::fitting))]
    pub fn row_of(&self, values: &[Literal]) -> Result<Row, Trouble>
        ensures ok { IfOk result (λ row. row_of self.now.columns values.now ≡ Ok row) }
        ensures fits { IfOk result (λ row. IsTrue (fits self.now.columns row)) }
        ensures cause { IfErr result (IsRowTrouble self.now.columns values.now) }
    {
        let mut given = Vec::with_capacity(*self.columns.allocator(), self.columns.len())?;
        read_values(self.columns.as_slice(), values, 1, &mut given)?;
        Ok(Row::of(given))
    }

    /// Writes the bytes of a row.
    pub fn encode(&self, row: &Row, into: &mut [u8])
        requires fits { IsTrue (fits self.now.columns row.now) }
        requires room { length into.old ≡ width_of self.now.columns }
        ensures { into.new ≡ row_bytes self.now.columns row.now }
    {
        encode_values(self.columns.as_slice(), row.values(), into);
        if row.hidden() {
            self.mark(true, into);
        }
    }

    /// The row with these bytes, if they are a row's. No two rows that fit have the same bytes.
    pub fn decode(&self, from: &[u8]) -> Result<Option<Row>, AllocError>
        ensures meaning { IfOk result (IsMeaning self.now.columns from.now) }
        ensures fits { IfOk result (λ found. IfSome found (λ row. IsTrue (fits self.now.columns row))) }
    {
        decode(*self.columns.allocator(), self.columns.as_slice(), from)
    }

    /// Whether these bytes are a row's, told without taking memory.
    pub fn is_row(&self, from: &[u8]) -> bool
        ensures { IsTrue result ↔ AreRowBytes self.now.columns from.now }
    {
        is_row(self.columns.as_slice(), from)
    }

    /// Whether the row with these bytes is hidden.
    pub fn is_hidden(&self, from: &[u8]) -> bool
        ensures { IsMarkOf self.now.columns from.now result }
    {
        // There is one at least.
        let _columns = self.columns();
        let Some((first, _)) = from.split_first() else {
            return false;
        };
        is_mark(*first)
    }

    /// From the bytes of a row to those of the same row, hidden or visible. As many bytes stay, whatever they are.
    pub fn mark(&self, hidden: bool, bytes: &mut [u8])
        ensures size { length bytes.new ≡ length bytes.old }
        ensures marked { Marks self.now.columns hidden bytes.old bytes.new }
    {
        // There is one at least.
        let _columns = self.columns();
        if !bytes.is_empty() {
            bytes[0] = remarked(bytes[0], hidden);
        }
    }

    /// Prints the values of a row, each as its column prints it, with commas between them, and nothing of its mark.
    /// Want of memory changes nothing.
    #[tactic(auto, using(crate::proofs::PrintLemmas::cut_back))]
    pub fn print(&self, row: &Row, out: &mut Bytes) -> Result<(), AllocError>
        ensures ok { OnOk result (out.new ≡ out.old ++ row_text self.now.columns row.now) }
        ensures err { OnErr result (out.new ≡ out.old) }
    {
        let before = out.as_slice().len();
        match print_values(self.columns.as_slice(), row.values(), out) {
            Ok(()) => Ok(()),
            Err(error) => {
                out.truncate(before);
                Err(error)
            }
        }
    }
}

/// The same columns once more.
pub fn copy_columns(alloc: Global, columns: &[Column]) -> Result<Vec<Column>, AllocError>
    ensures { IfOk result (λ made. made.items ≡ columns.now) }
{
    let mut made = Vec::with_capacity(alloc, columns.len())?;
    for column in columns {
        made.push(Column {
            name: column.name.copy()?,
            kind: column.kind,
        })?;
    }
    Ok(made)
}
