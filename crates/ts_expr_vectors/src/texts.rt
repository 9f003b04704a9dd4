// Texts of aggregate lists: what they are read as, and where they are refused.
use crate::made::{joined, list};
use std::alloc::Global;
use ts_base::{Refusal, Trouble};
use ts_expr::{Function, Item};

/// Texts of one item, and what they are read as.
static ONE: [(&[u8], Function, &[u8]); 18] = [
    (b"sum($v)", Function::Sum, b"v"),
    (b"avg($v)", Function::Avg, b"v"),
    (b"count($v)", Function::Count, b"v"),
    (b"min($v)", Function::Min, b"v"),
    (b"max($v)", Function::Max, b"v"),
    (b"first($v)", Function::First, b"v"),
    (b"last($v)", Function::Last, b"v"),
    (b"SUM($v)", Function::Sum, b"v"),
    (b"AVG($v)", Function::Avg, b"v"),
    (b"COUNT($v)", Function::Count, b"v"),
    (b"MIN($v)", Function::Min, b"v"),
    (b"MAX($v)", Function::Max, b"v"),
    (b"FIRST($v)", Function::First, b"v"),
    (b"LAST($v)", Function::Last, b"v"),
    (b"sum($ v)", Function::Sum, b"v"),
    (b" sum\t( $\r\nv ) ", Function::Sum, b"v"),
    (b"sum($sum)", Function::Sum, b"sum"),
    (
        b"last($_2345678901234567890123456789012)",
        Function::Last,
        b"_2345678901234567890123456789012",
    ),
];

fn is_item(item: &Item, function: Function, column: &[u8]) -> bool {
    item.function == function && item.column.as_slice() == column
}

// Whether a text is read as this item alone.
fn is_one(alloc: Global, text: &[u8], function: Function, column: &[u8]) -> bool {
    match list(alloc, text) {
        Ok(list) => match list.items() {
            [item] => is_item(item, function, column),
            _ => false,
        },
        Err(_) => false,
    }
}

#[test]
fn an_item_is_a_function_in_one_case_and_a_column(rt: HostRuntime) {
    for (text, function, column) in &ONE {
        assert!(rt; is_one(rt.alloc(), text, *function, column));
    }
}

#[test]
fn items_keep_their_order(rt: HostRuntime) {
    let text = b"MAX($b) , first( $a ),max($b)";
    let Ok(list) = list(rt.alloc(), text) else {
        panic!(rt; "not read");
    };
    let [one, two, three] = list.items() else {
        panic!(rt; "not three");
    };
    assert!(rt; is_item(one, Function::Max, b"b"));
    assert!(rt; is_item(two, Function::First, b"a"));
    assert!(rt; is_item(three, Function::Max, b"b"));
}

/// Texts, and the places where they are refused.
static BAD: [(&[u8], u32); 34] = [
    (b"", 0),
    (b" \t", 2),
    (b"#", 0),
    (b"7", 0),
    (b"$v", 0),
    (b"Sum($v)", 0),
    (b"sUM($v)", 0),
    (b"suM($v)", 0),
    (b" summ($v)", 1),
    (b"median($v)", 0),
    (b"(sum($v))", 0),
    (b"sum", 3),
    (b"sum ", 4),
    (b"sum $v", 4),
    (b"sum{$v}", 3),
    (b"sum(", 4),
    (b"sum()", 4),
    (b"sum(v)", 4),
    (b"sum(v$)", 4),
    (b"sum($", 5),
    (b"sum($)", 5),
    (b"sum($$v)", 5),
    (b"sum($1v)", 5),
    (b"sum($_23456789012345678901234567890123)", 5),
    (b"sum($v", 6),
    (b"sum($v,$w)", 6),
    (b"sum($v $w)", 7),
    (b"sum($v)x", 7),
    (b"sum($v);", 7),
    (b"sum($v) count($v)", 8),
    (b"sum($v),", 8),
    (b"sum($v), ", 9),
    (b"sum($v),,sum($v)", 8),
    (b"sum($v),Sum($v)", 8),
];

// The place at which a text is refused, if it is.
fn place(alloc: Global, text: &[u8]) -> Option<u32> {
    match list(alloc, text) {
        Err(Trouble::Refused(Refusal::BadExpression { place })) => Some(place),
        _ => None,
    }
}

#[test]
fn a_bad_text_is_refused_at_its_place(rt: HostRuntime) {
    for (text, wanted) in &BAD {
        assert!(rt; place(rt.alloc(), text) == Some(*wanted));
    }
}

#[test]
fn thirty_two_items_are_a_list_and_the_next_is_refused_at_its_comma(rt: HostRuntime) {
    let Ok(most) = joined(rt.alloc(), b"sum($v)", 32) else {
        panic!(rt; "no memory");
    };
    let Ok(more) = joined(rt.alloc(), b"sum($v)", 33) else {
        panic!(rt; "no memory");
    };
    let Ok(list) = list(rt.alloc(), most.as_slice()) else {
        panic!(rt; "not read");
    };
    assert!(rt; list.items().len() == 32);
    assert!(rt; place(rt.alloc(), more.as_slice()) == Some(255));
}
