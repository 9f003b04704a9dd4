// What a reply says of counts, stamps, elements and series.
ghost use Rattle.std.specs.Prelude.{◌≡◌, [], ◌∷◌, ◌++◌, IsTrue, IfSome, OnOk, OnErr, decimal, map, option_to_list};
ghost use Rattle.std.specs.List.{flat_map};
ghost use Rattle.ts_base.specs.Moment.{stamp_text};
ghost use Rattle.ts_row.specs.declared.value.Value.{Value};
ghost use Rattle.ts_row.specs.declared.value.Value.TheVariants.{Null};
ghost use Rattle.ts_row.specs.Row.{fits, quoted, value_text, Extends};
ghost use Rattle.ts_answer.specs.Reply.{count_line, counts_line, number_line, stamp_line, element_line, elements_text};
ghost use Rattle.ts_answer.specs.Reply.{series_line, shape_word};

use itoa::Buffer;
use std::alloc::{AllocError, Global};
use ts_base::{Bytes, Reply, Stamp};
use ts_row::{Row, RowType};

/// Says a count.
#[tactic(auto, unfolding(ts_answer::specs::Reply::count_line))]
pub fn say_count(out: &mut Reply, count: u64) -> Result<(), AllocError>
    ensures ok { OnOk result (out.new ≡ out.old ++ count_line count) }
    ensures err { OnErr result (Extends out.old out.new) }
{
    out.extend_from_slice(b"ok ")?;
    say_number(out, count)?;
    out.extend_from_slice(b"\n")
}

/// Says two counts.
#[tactic(auto, unfolding(ts_answer::specs::Reply::counts_line))]
pub fn say_counts(out: &mut Reply, first: u64, second: u64) -> Result<(), AllocError>
    ensures ok { OnOk result (out.new ≡ out.old ++ counts_line first second) }
    ensures err { OnErr result (Extends out.old out.new) }
{
    out.extend_from_slice(b"ok ")?;
    say_number(out, first)?;
    out.extend_from_slice(b" ")?;
    say_number(out, second)?;
    out.extend_from_slice(b"\n")
}

/// Says a number with its sign.
#[tactic(auto, unfolding(ts_answer::specs::Reply::number_line))]
pub fn say_signed(out: &mut Reply, number: i64) -> Result<(), AllocError>
    ensures ok { OnOk result (out.new ≡ out.old ++ number_line number) }
    ensures err { OnErr result (Extends out.old out.new) }
{
    out.extend_from_slice(b"ok ")?;
    let mut buffer = Buffer::new();
    out.extend_from_slice(buffer.format(number).as_bytes())?;
    out.extend_from_slice(b"\n")
}

/// Says a stamp that was sought, or that of a change.
#[tactic(auto, unfolding(ts_answer::specs::Reply::stamp_line))]
pub fn say_stamp(out: &mut Reply, stamp: Stamp) -> Result<(), AllocError>
    ensures ok { OnOk result (out.new ≡ out.old ++ stamp_line stamp) }
    ensures err { OnErr result (Extends out.old out.new) }
{
    out.extend_from_slice(b"ok ")?;
    say_stamp_text(out, stamp)?;
    out.extend_from_slice(b"\n")
}

/// Says an element in a line.
#[tactic(auto, unfolding(ts_answer::specs::Reply::element_line))]
pub fn say_element(
    alloc: Global,
    out: &mut Reply,
    kind: &RowType,
    stamp: Stamp,
    row: &Row,
) -> Result<(), AllocError>
    requires { IsTrue (fits kind.now.columns row.now) }
    ensures ok { OnOk result (out.new ≡ out.old ++ element_line kind.now.columns (stamp, row.now)) }
    ensures err { OnErr result (Extends out.old out.new) }
{
    let mut text = Bytes::new(alloc);
    kind.print(row, &mut text)?;
    say_stamp_text(out, stamp)?;
    out.extend_from_slice(b" ")?;
    out.extend_from_slice(text.as_slice())?;
    out.extend_from_slice(b"\n")
}

/// Says the element at a stamp, if there is one, and how many there are.
pub fn say_row(
    alloc: Global,
    out: &mut Reply,
    kind: &RowType,
    stamp: Stamp,
    row: Option<Row>,
) -> Result<(), AllocError>
    requires { IfSome row (λ r. IsTrue (fits kind.now.columns r)) }
    ensures ok { OnOk result (out.new ≡ out.old
        ++ elements_text kind.now.columns (map (λ r. (stamp, r)) (option_to_list row))) }
    ensures err { OnErr result (Extends out.old out.new) }
{
    match row {
        Some(row) => say_found(alloc, out, kind, Some((stamp, row))),
        None => say_found(alloc, out, kind, None),
    }
}

/// Says an element, if there is one, and how many there are.
#[tactic(auto, unfolding(ts_answer::specs::Reply::elements_text))]
pub fn say_found(
    alloc: Global,
    out: &mut Reply,
    kind: &RowType,
    found: Option<(Stamp, Row)>,
) -> Result<(), AllocError>
    requires { IfSome found (λ e. IsTrue (fits kind.now.columns e.1)) }
    ensures ok { OnOk result (out.new ≡ out.old ++ elements_text kind.now.columns (option_to_list found)) }
    ensures err { OnErr result (Extends out.old out.new) }
{
    match found {
        Some((stamp, row)) => {
            say_element(alloc, out, kind, stamp, &row)?;
            say_count(out, 1)
        }
        None => say_count(out, 0),
    }
}

/// Says a series in a line: its key, whether it is regular, and the number of its elements.
#[tactic(auto, unfolding(ts_answer::specs::Reply::series_line))]
pub fn say_series(
    out: &mut Reply,
    key: &[u8],
    is_regular: bool,
    count: u64,
) -> Result<(), AllocError>
    ensures ok { OnOk result (out.new ≡ out.old ++ series_line (key.now, is_regular, count)) }
    ensures err { OnErr result (Extends out.old out.new) }
{
    out.extend_from_slice(b"'")?;
    say_quoted(out, key)?;
    out.extend_from_slice(b"' ")?;
    say_shape(out, is_regular)?;
    out.extend_from_slice(b" ")?;
    say_number(out, count)?;
    out.extend_from_slice(b"\n")
}

// Says what a series is called by how its elements lie.
fn say_shape(out: &mut Reply, is_regular: bool) -> Result<(), AllocError>
    ensures ok { OnOk result (out.new ≡ out.old ++ shape_word is_regular) }
    ensures err { OnErr result (Extends out.old out.new) }
{
    if is_regular {
        out.extend_from_slice(b"regular")
    } else {
        out.extend_from_slice(b"irregular")
    }
}

/// Says a number in decimal digits.
pub(crate) fn say_number(out: &mut Reply, number: u64) -> Result<(), AllocError>
    ensures ok { OnOk result (out.new ≡ out.old ++ decimal number) }
    ensures err { OnErr result (Extends out.old out.new) }
{
    let mut buffer = Buffer::new();
    out.extend_from_slice(buffer.format(number).as_bytes())
}

/// Says a stamp.
pub(crate) fn say_stamp_text(out: &mut Reply, stamp: Stamp) -> Result<(), AllocError>
    ensures ok { OnOk result (out.new ≡ out.old ++ stamp_text stamp) }
    ensures err { OnErr result (Extends out.old out.new) }
{
    let mut text = [0u8; 25];
    stamp.write_into(&mut text);
    out.extend_from_slice(&text)
}

/// Says a text, each quote in it twice.
pub(crate) fn say_quoted(out: &mut Reply, text: &[u8]) -> Result<(), AllocError>
    ensures ok { OnOk result (out.new ≡ out.old ++ flat_map quoted text.now) }
    ensures err { OnErr result (Extends out.old out.new) }
{
    for byte in text {
        if *byte == b'\'' {
            out.push(b'\'')?;
        }
        out.push(*byte)?;
    }
    Ok(())
}

/// Says NULL, and a byte behind it.
#[inline(never)]
pub(crate) fn say_null(out: &mut Reply, behind: u8) -> Result<(), AllocError>
    ensures ok { OnOk result (out.new ≡ out.old ++ value_text 0 Null ++ behind ∷ []) }
    ensures err { OnErr result (Extends out.old out.new) }
{
    out.extend_from_slice(b"null")?;
    out.push(behind)
}

/// Says a text in quotes, and a byte behind it.
#[inline(never)]
pub(crate) fn say_text(out: &mut Reply, text: &[u8], behind: u8) -> Result<(), AllocError>
    ensures ok { OnOk result (out.new ≡ out.old ++ value_text 0 (Value.Text text.now) ++ behind ∷ []) }
    ensures err { OnErr result (Extends out.old out.new) }
{
    out.push(b'\'')?;
    say_quoted(out, text)?;
    out.push(b'\'')?;
    out.push(behind)
}
