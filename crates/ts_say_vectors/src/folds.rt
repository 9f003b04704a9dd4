// What an aggregate list makes of elements and series, and rows of numbers, as a user reads them.
use std::alloc::{AllocError, Global};
use std::test::Fail;
use ts_base::{Bytes, Key, Reply, Stamp};
use ts_entry::ElementVisitor;
use ts_row::{Row, Value};
use ts_running::NumbersVisitor;
use ts_say::{FoldedLines, say_folded, say_series_folded};

// The digits behind the point of a mean of a decimal(28,28), of a count, of an integer's sum and of a least text.
const SCALES: [u8; 4] = [34, 0, 0, 0];

// A row of a mean, a count, no sum and a text with a quote.
fn row(alloc: Global, mean: i128, count: i128) -> Result<Row, AllocError> {
    let mut values = Vec::new(alloc);
    values.push(Value::Number(mean))?;
    values.push(Value::Number(count))?;
    values.push(Value::Null)?;
    values.push(Value::Text(Bytes::from_slice(alloc, b"it's")?))?;
    Ok(Row::of(values))
}

// Two elements, on two days.
fn elements(alloc: Global, out: &mut Reply) -> Result<(), Fail> {
    let (Some(first), Some(second)) = (Stamp::of(-1), Stamp::of(272_605_567_890)) else {
        return Err(Fail::from("no stamp"));
    };
    let mut lines = FoldedLines::behind(out, &SCALES);
    lines.element(first, &row(alloc, -1, 3)?)?;
    lines.element(second, &row(alloc, i128::MAX, 4_294_967_296)?)?;
    Ok(())
}

#[test]
fn a_mean_is_said_to_its_last_digit(rt: HostRuntime) -> Result<(), Fail> {
    let mut out = Reply::new(rt.alloc());
    elements(rt.alloc(), &mut out)?;
    let wanted: &[u8] =
        b"1969-12-31 23:59:59.99999 -0.0000000000000000000000000000000001,3,null,'it''s'
1970-02-01 13:14:15.67890 17014.1183460469231731687303715884105727,4294967296,null,'it''s'
";
    assert!(rt; out.as_slice() == wanted);
    Ok(())
}

// Two rows of numbers.
fn numbers(out: &mut Reply) -> Result<(), Fail> {
    let (Some(first), Some(second)) = (Stamp::of(-1), Stamp::of(272_605_567_890)) else {
        return Err(Fail::from("no stamp"));
    };
    let mut lines = FoldedLines::behind(out, &SCALES);
    lines.numbers(first, &[Some(-1), Some(3), None, Some(-7)])?;
    lines.numbers(second, &[None, Some(i128::MAX), Some(0), None])?;
    Ok(())
}

#[test]
fn rows_of_numbers_are_said_as_rows(rt: HostRuntime) -> Result<(), Fail> {
    let mut out = Reply::new(rt.alloc());
    numbers(&mut out)?;
    let wanted: &[u8] = b"1969-12-31 23:59:59.99999 -0.0000000000000000000000000000000001,3,null,-7
1970-02-01 13:14:15.67890 null,170141183460469231731687303715884105727,0,null
";
    assert!(rt; out.as_slice() == wanted);
    Ok(())
}

// One row, and that it is one.
fn one_row(alloc: Global, out: &mut Reply) -> Result<(), Fail> {
    let Some(stamp) = Stamp::of(0) else {
        return Err(Fail::from("no stamp"));
    };
    let half = 5_000_000_000_000_000_000_000_000_000_000_000;
    say_folded(out, &SCALES, stamp, &row(alloc, half, 2)?)?;
    Ok(())
}

#[test]
fn a_row_of_a_range_is_said_with_its_count(rt: HostRuntime) -> Result<(), Fail> {
    let mut out = Reply::new(rt.alloc());
    one_row(rt.alloc(), &mut out)?;
    let wanted: &[u8] =
        b"1970-01-01 00:00:00.00000 0.5000000000000000000000000000000000,2,null,'it''s'
ok 1
";
    assert!(rt; out.as_slice() == wanted);
    Ok(())
}

// A series whose key has a quote.
fn series(alloc: Global, out: &mut Reply) -> Result<(), Fail> {
    let Some(key) = Key::read(alloc, b"it's")? else {
        return Err(Fail::from("no key"));
    };
    say_series_folded(out, &key, &SCALES, &row(alloc, 0, 0)?)?;
    Ok(())
}

#[test]
fn a_series_is_said_with_its_key_in_quotes(rt: HostRuntime) -> Result<(), Fail> {
    let mut out = Reply::new(rt.alloc());
    series(rt.alloc(), &mut out)?;
    let wanted: &[u8] = b"'it''s' 0.0000000000000000000000000000000000,0,null,'it''s'\n";
    assert!(rt; out.as_slice() == wanted);
    Ok(())
}
