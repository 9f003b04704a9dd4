// Texts of expressions: which are read, and where the others are refused.
use crate::made::{around, joined, list};
use std::alloc::Global;
use ts_base::{Refusal, Trouble};
use ts_running::{expression_texts_are_tokens, expressions_are_refused_in_place};

/// Texts, and the places where they are refused.
static BAD: [(&[u8], u32); 29] = [
    (b"", 0),
    (b" \t", 2),
    (b"#", 0),
    (b"v", 0),
    (b"sum($v)", 0),
    (b"+$v", 0),
    (b"*$v", 0),
    (b")", 0),
    (b"$", 1),
    (b"$ ", 2),
    (b"$1", 1),
    (b"$$v", 1),
    (b"$_23456789012345678901234567890123", 1),
    (b"$v+", 3),
    (b"$v-", 3),
    (b"$v* ", 4),
    (b"$v**$w", 3),
    (b"$v*+$w", 3),
    (b"$v$w", 2),
    (b"$v 1", 3),
    (b"$v#", 2),
    (b"1.5", 1),
    (b"- ", 2),
    (b"()", 1),
    (b"($v", 3),
    (b"($v,$w)", 3),
    (b"$v)", 2),
    (b"$v,", 3),
    (b"$v,,$w", 3),
];

// The place at which a text is refused, if it is.
fn place(alloc: Global, text: &[u8]) -> Option<u32> {
    match list(alloc, text) {
        Err(Trouble::Refused(Refusal::BadExpression { place })) => Some(place),
        _ => None,
    }
}

#[test]
fn a_bad_text_is_refused_at_its_place(rt: HostRuntime) {
    for (text, wanted) in &BAD {
        assert!(rt; place(rt.alloc(), text) == Some(*wanted));
    }
}

// Whether so many brackets round a column are read, or where they are refused.
fn brackets(alloc: Global, count: usize) -> Result<(), Trouble> {
    let text = around(alloc, b'(', b"$v", b')', count)?;
    list(alloc, text.as_slice())?;
    Ok(())
}

#[test]
fn sixty_three_brackets_are_read_and_the_next_is_refused(rt: HostRuntime) {
    assert!(rt; brackets(rt.alloc(), 63).is_ok());
    match brackets(rt.alloc(), 64) {
        Err(Trouble::Refused(why)) => assert!(rt; why == Refusal::BadExpression { place: 63 }),
        _ => panic!(rt; "not refused"),
    }
}

// Whether so many signs before a column are read, or where they are refused.
fn signs(alloc: Global, count: usize) -> Result<(), Trouble> {
    let mut text = around(alloc, b'-', b"$v", b' ', count)?;
    text.push(b' ')?;
    list(alloc, text.as_slice())?;
    Ok(())
}

#[test]
fn sixty_three_signs_are_read_and_the_next_is_refused(rt: HostRuntime) {
    assert!(rt; signs(rt.alloc(), 63).is_ok());
    match signs(rt.alloc(), 64) {
        Err(Trouble::Refused(why)) => assert!(rt; why == Refusal::BadExpression { place: 63 }),
        _ => panic!(rt; "not refused"),
    }
}

#[test]
fn eighteen_digits_are_read_and_nineteen_refused(rt: HostRuntime) {
    assert!(rt; list(rt.alloc(), b"999999999999999999").is_ok());
    assert!(rt; list(rt.alloc(), b"000000000000000000").is_ok());
    assert!(rt; place(rt.alloc(), b"1000000000000000000") == Some(0));
    assert!(rt; place(rt.alloc(), b"$v+ 0000000000000000000") == Some(4));
}

#[test]
fn thirty_two_expressions_are_a_list_and_the_next_is_refused_at_its_comma(rt: HostRuntime) {
    let Ok(most) = joined(rt.alloc(), b"$v", 32) else {
        panic!(rt; "no memory");
    };
    let Ok(more) = joined(rt.alloc(), b"$v", 33) else {
        panic!(rt; "no memory");
    };
    assert!(rt; list(rt.alloc(), most.as_slice()).is_ok());
    assert!(rt; place(rt.alloc(), more.as_slice()) == Some(95));
}

#[test]
fn the_laws_are_called(_rt: HostRuntime) {
    expression_texts_are_tokens();
    expressions_are_refused_in_place();
}
