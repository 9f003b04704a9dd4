// Statements that read series, and the commands that they are.
use crate::commands::{Rest, Row, is_read};

/// Readings, combinations, aggregates and running values, and the commands that they are.
pub(crate) static READINGS: [(&[u8], Row); 21] = [
    (
        b"GetFirstElem('x');",
        ("GetFirstElem", b"x", b"", Rest::Nothing),
    ),
    (
        b"GetNthElem('it''s', 0);",
        ("GetNthElem", b"it's", b"", Rest::Number(0)),
    ),
    (
        b"GetNthElem('x',4294967295);",
        ("GetNthElem", b"x", b"", Rest::Number(4294967295)),
    ),
    (
        b"Clip('x','1970-01-01 00:00:00','1969-12-31 23:59:59.99999');",
        ("Clip", b"x", b"", Rest::Stamps(0, -1)),
    ),
    (
        b"ClipGetCount('x' , '1970-01-01 00:00:00.00001','1970-01-01 00:00:00');",
        ("ClipGetCount", b"x", b"", Rest::Stamps(1, 0)),
    ),
    (
        b"ClipCount('x','1970-01-01 00:00:00.00001',-1000000);",
        ("ClipCount", b"x", b"", Rest::StampAndNumber(1, -1000000)),
    ),
    (
        b"ClipCount('x','1970-01-01 00:00:00',1000000);",
        ("ClipCount", b"x", b"", Rest::StampAndNumber(0, 1000000)),
    ),
    (
        b"ClipCount('x','1970-01-01 00:00:00',-0);",
        ("ClipCount", b"x", b"", Rest::StampAndNumber(0, 0)),
    ),
    (
        b"Union('x','y','1970-01-01 00:00:00.00001','1970-01-01 00:00:00');",
        ("Union", b"x", b"y", Rest::Stamps(1, 0)),
    ),
    (
        b"Intersect('y', 'x', '1970-01-01 00:00:00', '1970-01-01 00:00:00.00001');",
        ("Intersect", b"y", b"x", Rest::Stamps(0, 1)),
    ),
    (
        b"Lag('x',-2147483647);",
        ("Lag", b"x", b"", Rest::Number(-2147483647)),
    ),
    (
        b"Lag('x',2147483647);",
        ("Lag", b"x", b"", Rest::Number(2147483647)),
    ),
    (b"Lag('x',007);", ("Lag", b"x", b"", Rest::Number(7))),
    (
        b"AggregateBy('sum($v)', c, 'x', '1970-01-01 00:00:00', '1970-01-01 00:00:00.00001');",
        ("AggregateBy", b"x", b"c", Rest::List(b"sum($v)", 0, 1)),
    ),
    (
        b"AggregateRange('', 'it''s', '1970-01-01 00:00:00.00001', '1970-01-01 00:00:00');",
        ("AggregateRange", b"it's", b"", Rest::List(b"", 1, 0)),
    ),
    (
        b"AggregateAll('it''s',c1,'1970-01-01 00:00:00','1969-12-31 23:59:59.99999');",
        ("AggregateAll", b"c1", b"", Rest::List(b"it's", 0, -1)),
    ),
    (
        b"TSRunningSum('$v','it''s',2,'1970-01-01 00:00:00.00001','1970-01-01 00:00:00');",
        ("TSRunningSum", b"it's", b"", Rest::Span(b"$v", 2, (1, 0))),
    ),
    (
        b"TSRunningSum ( '' , 'a' , 0065536 , '1970-01-01 00:00:00', '1970-01-01 00:00:00' );",
        ("TSRunningSum", b"a", b"", Rest::Span(b"", 65536, (0, 0))),
    ),
    (
        b"TSRunningAvg('$v','a',1,'1970-01-01 00:00:00','1970-01-01 00:00:00.00001');",
        ("TSRunningAvg", b"a", b"", Rest::Span(b"$v", 1, (0, 1))),
    ),
    (
        b"TSRunningAvg('$w','b',65536,'1970-01-01 00:00:00','1969-12-31 23:59:59.99999');",
        ("TSRunningAvg", b"b", b"", Rest::Span(b"$w", 65536, (0, -1))),
    ),
    (
        b"Apply('$v*$v+1,-$v','a','1970-01-01 00:00:00','1970-01-01 00:00:00.00001');",
        ("Apply", b"a", b"", Rest::List(b"$v*$v+1,-$v", 0, 1)),
    ),
];

#[test]
fn each_reading_is_read_with_its_arguments(rt: HostRuntime) {
    for (text, wanted) in &READINGS {
        assert!(rt; is_read(rt.alloc(), text, *wanted));
    }
}
