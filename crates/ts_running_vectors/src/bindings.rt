// What lists are bound to: the digits after their points, and why they aren't bound.
use crate::made::bound;
use ts_base::{Refusal, Trouble};

/// Lists, and the digits after the points of their expressions.
static SCALES: [(&[u8], &[u8]); 6] = [
    (b"$v,$b,$half,$fine,$one,7", &[0, 0, 14, 28, 1, 0]),
    (b"-$half,($one)", &[14, 1]),
    (b"$half+$one,$one-$half,$v+$fine", &[14, 14, 28]),
    (b"$half*$half,$fine*$v,$one*$one*$one", &[28, 28, 3]),
    (b"$half*($half-1)", &[28]),
    (b"$v*$w+1,-$v", &[0, 0]),
];

#[test]
fn a_sum_has_the_greater_scale_and_a_product_their_sum(rt: HostRuntime) {
    for (text, scales) in &SCALES {
        match bound(rt.alloc(), text) {
            Ok(bound) => assert!(rt; bound.scales() == *scales),
            Err(_) => panic!(rt; "not bound"),
        }
    }
}

/// A column of texts, or a part with over 28 digits after the point.
const BAD_PART: Refusal = Refusal::BadExpression { place: 0 };

/// Lists, and why they aren't bound.
static BAD: [(&[u8], Refusal); 13] = [
    (b"$x", Refusal::UnknownColumn),
    (b"$V", Refusal::UnknownColumn),
    (b"$time", Refusal::UnknownColumn),
    (b"$t", BAD_PART),
    (b"1+$t", BAD_PART),
    (b"$x,$t", Refusal::UnknownColumn),
    (b"$t,$x", BAD_PART),
    (b"$v*($w-$x)+$t", Refusal::UnknownColumn),
    (b"$fine*$one", BAD_PART),
    (b"$half*$half*$one", BAD_PART),
    (b"($half*$half*$one)-1", BAD_PART),
    (b"$fine*$one,$x", Refusal::UnknownColumn),
    (b"$v,$fine*$one", BAD_PART),
];

#[test]
fn names_decide_from_left_to_right_and_then_scales(rt: HostRuntime) {
    for (text, wanted) in &BAD {
        match bound(rt.alloc(), text) {
            Err(Trouble::Refused(why)) => assert!(rt; why == *wanted),
            _ => panic!(rt; "not refused"),
        }
    }
}
