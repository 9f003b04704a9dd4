// The columns of running values: which texts name one, and what they are bound to.
ghost use Rattle.std.specs.Prelude.{IsTrue};
ghost use Rattle.ts_running.specs.Places.{is_running};

use crate::made::row_type;
use std::alloc::Global;
use ts_base::{Refusal, Trouble};
use ts_expr::{BoundItem, Function};
use ts_running::{bind_column, read_column};

// Whether a text of at most 64 bytes names this column.
fn names(alloc: Global, text: &[u8], wanted: &[u8]) -> bool {
    match read_column(alloc, &text[..text.len().min(64)]) {
        Ok(name) => name.as_slice() == wanted,
        Err(_) => false,
    }
}

#[test]
fn blanks_may_stand_between_the_tokens(rt: HostRuntime) {
    for text in [b"$v".as_slice(), b" $v", b"$ v", b"\t$\r\n v \t"] {
        assert!(rt; names(rt.alloc(), text, b"v"));
    }
    assert!(rt; names(rt.alloc(), b"$V_1", b"V_1"));
}

/// Texts, and the places where they are refused.
static BAD: [(&[u8], u32); 11] = [
    (b"", 0),
    (b"v", 0),
    (b"sum($v)", 0),
    (b"$", 1),
    (b"$ 1", 2),
    (b"$$v", 1),
    (b"$v+1", 2),
    (b"$v,$w", 2),
    (b"$v $w", 3),
    (b"($v)", 0),
    (b"$v#", 2),
];

// The place at which a text of at most 64 bytes is refused, if it is.
fn place(alloc: Global, text: &[u8]) -> Option<u32> {
    match read_column(alloc, &text[..text.len().min(64)]) {
        Err(Trouble::Refused(Refusal::BadExpression { place })) => Some(place),
        _ => None,
    }
}

#[test]
fn another_text_is_refused_at_its_place(rt: HostRuntime) {
    for (text, wanted) in &BAD {
        assert!(rt; place(rt.alloc(), text) == Some(*wanted));
    }
}

// What a column of the row type is bound to.
fn bound(alloc: Global, function: Function, name: &[u8]) -> Result<BoundItem, Trouble>
    requires { IsTrue (is_running function) }
{
    let kind = row_type(alloc)?;
    bind_column(function, name, &kind)
}

// Whether a column is bound as this one, with so many digits after the point.
fn is_bound(found: Result<BoundItem, Trouble>, column: usize, scale: u8) -> bool {
    match found {
        Ok(item) => item.column == column && item.scale == scale,
        Err(_) => false,
    }
}

#[test]
fn a_mean_has_six_digits_more_than_its_column(rt: HostRuntime) {
    let alloc = rt.alloc();
    assert!(rt; is_bound(bound(alloc, Function::Sum, b"v"), 0, 0));
    assert!(rt; is_bound(bound(alloc, Function::Avg, b"w"), 1, 6));
    assert!(rt; is_bound(bound(alloc, Function::Sum, b"half"), 3, 14));
    assert!(rt; is_bound(bound(alloc, Function::Avg, b"fine"), 4, 34));
}

// Why a column isn't bound, if it isn't.
fn refusal(found: Result<BoundItem, Trouble>) -> Option<Refusal> {
    match found {
        Err(Trouble::Refused(why)) => Some(why),
        _ => None,
    }
}

#[test]
fn an_unknown_column_and_one_of_texts_are_refused(rt: HostRuntime) {
    let alloc = rt.alloc();
    let texts = Some(Refusal::BadExpression { place: 0 });
    assert!(rt; refusal(bound(alloc, Function::Sum, b"x")) == Some(Refusal::UnknownColumn));
    assert!(rt; refusal(bound(alloc, Function::Avg, b"time")) == Some(Refusal::UnknownColumn));
    assert!(rt; refusal(bound(alloc, Function::Sum, b"t")) == texts);
    assert!(rt; refusal(bound(alloc, Function::Avg, b"t")) == texts);
}
