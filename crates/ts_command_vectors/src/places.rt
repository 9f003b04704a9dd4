// Statements that no script has as a line of its own, and the places where they are refused. All others stand in the
// script of the program ts_syntax, which tells their places.
use crate::commands::place;

/// Statements, and the places where they are refused.
static STATEMENTS: [(&[u8], u32); 4] = [
    (b"", 0),
    (b" ;", 1),
    (b"InsElem('x','2011-02-28 00:00:00',1,", 36),
    (b"Begin", 5),
];

#[test]
fn a_refusal_tells_the_first_place_that_cannot_stand(rt: HostRuntime) {
    for (text, wanted) in &STATEMENTS {
        assert!(rt; place(rt.alloc(), text) == Some(*wanted));
    }
}
