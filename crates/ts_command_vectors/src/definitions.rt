// Statements about patterns and calendars, and the commands that they are.
use crate::commands::{Rest, Row, is_read};

/// Statements, and the commands that they are.
static STATEMENTS: [(&[u8], Row); 16] = [
    (
        b"CreatePattern(p, '{5 on,2 off},day');",
        ("CreatePattern", b"p", b"", Rest::Text(b"{5 on,2 off},day")),
    ),
    (
        b"NotOp(weekend,workweek);",
        ("NotOp", b"weekend", b"workweek", Rest::Nothing),
    ),
    (
        b"AndOp(pattern,p,a,b);",
        ("AndPatterns", b"p", b"a", Rest::Name(b"b")),
    ),
    (
        b"OrOp ( pattern , p , a , a ) ;",
        ("OrPatterns", b"p", b"a", Rest::Name(b"a")),
    ),
    (
        b"AndOp(calendar,pattern,a,b);",
        ("AndCalendars", b"pattern", b"a", Rest::Name(b"b")),
    ),
    (
        b"OrOp(calendar,c,calendar,b);",
        ("OrCalendars", b"c", b"calendar", Rest::Name(b"b")),
    ),
    (
        b"ShowPattern(pattern);",
        ("ShowPattern", b"pattern", b"", Rest::Nothing),
    ),
    (
        b"DropPattern(p);",
        ("DropPattern", b"p", b"", Rest::Nothing),
    ),
    (
        b"CreateCalendar(c,'it''s; none');",
        ("CreateCalendar", b"c", b"", Rest::Text(b"it's; none")),
    ),
    (
        b"CreateCalendar(c,'');",
        ("CreateCalendar", b"c", b"", Rest::Text(b"")),
    ),
    (
        b"ShowCalendar(null);",
        ("ShowCalendar", b"null", b"", Rest::Nothing),
    ),
    (
        b"DropCalendar(c);",
        ("DropCalendar", b"c", b"", Rest::Nothing),
    ),
    (
        b"CalIndex(c,'1970-01-01 00:00:00','1969-12-31 23:59:59.99999');",
        ("CalIndex", b"c", b"", Rest::Stamps(0, -1)),
    ),
    (
        b"CalRange(c,'1969-12-31 23:59:59.99999','1970-01-01 00:00:00.00001');",
        ("CalRange", b"c", b"", Rest::Stamps(-1, 1)),
    ),
    (
        b"CalStamp(c,'1970-01-01 00:00:00.00002',1);",
        ("CalStamp", b"c", b"", Rest::StampAndNumber(2, 1)),
    ),
    (
        b"CalStamp(c,'1970-01-01 00:00:00',04294967295);",
        ("CalStamp", b"c", b"", Rest::StampAndNumber(0, 4294967295)),
    ),
];

#[test]
fn patterns_and_calendars_are_read_with_their_arguments(rt: HostRuntime) {
    for (text, wanted) in &STATEMENTS {
        assert!(rt; is_read(rt.alloc(), text, *wanted));
    }
}
