// Statements of rolling sets, and the commands that they are.
use crate::commands::{Rest, Row, Value, is_read};

/// Statements of rolling sets, and the commands that they are. The key of a set has 40 bytes at most.
static STATEMENTS: [(&[u8], Row); 4] = [
    (
        b"RollingCreate('k', dc, '1970-01-01 00:00:00.00001', c1, 0001000);",
        ("RollingCreate", b"k", b"dc", Rest::Set(1, b"c1", 1000)),
    ),
    (
        b"RollingPut('0123456789012345678901234567890123456789','1970-01-01 00:00:00',1,null);",
        (
            "RollingPut",
            b"0123456789012345678901234567890123456789",
            b"",
            Rest::Values(0, &[Value::Number(1, 0), Value::Null]),
        ),
    ),
    (
        b"RollingClip('it''s','1970-01-01 00:00:00','1969-12-31 23:59:59.99999');",
        ("RollingClip", b"it's", b"", Rest::Stamps(0, -1)),
    ),
    (
        b"RollingDrop ( 'k' ) ;",
        ("RollingDrop", b"k", b"", Rest::Nothing),
    ),
];

#[test]
fn statements_of_sets_are_read(rt: HostRuntime) {
    for (text, wanted) in &STATEMENTS {
        assert!(rt; is_read(rt.alloc(), text, *wanted));
    }
}
