// The values of expressions, and where a number has no place.
use crate::made::{bound, element, is_row};
use std::alloc::Global;
use ts_running::{ApplyError, ApplyRoom, BoundExpr};

/// What came of expressions over an element.
#[derive(Clone, Copy, Debug, PartialEq, Eq)]
enum Came {
    /// These values.
    Wanted,
    Other,
    Overflow,
    /// They aren't bound, or there is no memory.
    Nothing,
}

// What comes of expressions over an element with these numbers, beside the values that are wanted.
fn outcome(alloc: Global, text: &[u8], numbers: &[Option<i128>], wanted: &[Option<i128>]) -> Came {
    let (Ok(bound), Ok(element)) = (bound(alloc, text), element(alloc, numbers)) else {
        return Came::Nothing;
    };
    let mut room = ApplyRoom::new(alloc);
    let came = match bound.apply(&element) {
        Ok(row) if is_row(&row, wanted) => Came::Wanted,
        Ok(_) => Came::Other,
        Err(ApplyError::Overflow) => Came::Overflow,
        Err(ApplyError::Memory(_)) => Came::Nothing,
    };
    if came == came_of_numbers(&bound, numbers, &mut room, wanted) {
        came
    } else {
        Came::Nothing
    }
}

// What comes of them over the numbers of a row, in room that is kept.
fn came_of_numbers(
    bound: &BoundExpr,
    numbers: &[Option<i128>],
    room: &mut ApplyRoom,
    wanted: &[Option<i128>],
) -> Came {
    match bound.apply_to(numbers, room) {
        Ok(()) if room.numbers() == wanted => Came::Wanted,
        Ok(()) => Came::Other,
        Err(ApplyError::Overflow) => Came::Overflow,
        Err(ApplyError::Memory(_)) => Came::Nothing,
    }
}

// What an overflow left in the room isn't there in the next row.
#[test]
fn the_room_of_a_row_serves_the_next(rt: HostRuntime) {
    let Ok(bound) = bound(rt.alloc(), b"$v*$v+1,$v*$v*$v,-$v") else {
        panic!(rt; "not bound");
    };
    let mut room = ApplyRoom::new(rt.alloc());
    for _ in 0..2 {
        let wanted = [Some(10), Some(27), Some(-3)];
        assert!(rt; came_of_numbers(&bound, &[Some(3)], &mut room, &wanted) == Came::Wanted);
        assert!(rt; came_of_numbers(&bound, &[Some(MOST_BIG)], &mut room, &[]) == Came::Overflow);
        assert!(rt; came_of_numbers(&bound, &[None], &mut room, &[None; 3]) == Came::Wanted);
    }
}

#[test]
fn a_square_and_one_more_beside_the_opposite(rt: HostRuntime) {
    for (v, square, opposite) in [(1, 2, -1), (2, 5, -2), (3, 10, -3)] {
        let wanted = [Some(square), Some(opposite)];
        assert!(rt; outcome(rt.alloc(), b"$v*$v+1,-$v", &[Some(v)], &wanted) == Came::Wanted);
    }
}

/// Expressions, and their values where v is 7 and w is 3.
static SEVEN_AND_THREE: [(&[u8], i128); 16] = [
    (b"5-3", 2),
    (b"$v-5", 2),
    (b"-5", -5),
    (b"--$v", 7),
    (b"-$v*-$w", 21),
    (b"$v*-2", -14),
    (b"$v+$w*2", 13),
    (b"($v+$w)*2", 20),
    (b"$v-$w-1", 3),
    (b"$v-($w-1)", 5),
    (b"-($v+$w)", -10),
    (b"-$v+$w", -4),
    (b"2*3+4*5", 26),
    (b"$v*$w*$v-$w", 144),
    (b" $ v\t+\r\n001 ", 8),
    (b"999999999999999999*$w", 2_999_999_999_999_999_997),
];

#[test]
fn products_bind_closer_and_signs_go_from_left_to_right(rt: HostRuntime) {
    for (text, value) in &SEVEN_AND_THREE {
        let numbers = [Some(7), Some(3)];
        assert!(rt; outcome(rt.alloc(), text, &numbers, &[Some(*value)]) == Came::Wanted);
    }
}

/// 2^63 - 1.
const MOST_BIG: i128 = 9_223_372_036_854_775_807;

#[test]
fn a_square_of_the_greatest_bigint_has_a_place_and_its_cube_none(rt: HostRuntime) {
    let numbers = [None, None, Some(MOST_BIG)];
    let square = [Some(85_070_591_730_234_615_847_396_907_784_232_501_249)];
    assert!(rt; outcome(rt.alloc(), b"$b*$b", &numbers, &square) == Came::Wanted);
    assert!(rt; outcome(rt.alloc(), b"$b*$b*$b", &numbers, &[None]) == Came::Overflow);
    assert!(rt; outcome(rt.alloc(), b"1,$b*$b*$b,1", &numbers, &[None]) == Came::Overflow);
}

/// 2^127 - 1.
const MOST: i128 = 170_141_183_460_469_231_731_687_303_715_884_105_727;

/// 2^64, and 2^63 - 1.
const FACTORS: [Option<i128>; 2] = [
    Some(18_446_744_073_709_551_616),
    Some(9_223_372_036_854_775_807),
];

#[test]
fn the_greatest_number_has_a_place_on_both_sides_of_zero(rt: HostRuntime) {
    let numbers = [FACTORS[0], FACTORS[1], Some(18_446_744_073_709_551_615)];
    assert!(rt; outcome(rt.alloc(), b"$v*$w+$b", &numbers, &[Some(MOST)]) == Came::Wanted);
    assert!(rt; outcome(rt.alloc(), b"-$v*$w-$b", &numbers, &[Some(-MOST)]) == Came::Wanted);
    assert!(rt; outcome(rt.alloc(), b"-($v*$w+$b)", &numbers, &[Some(-MOST)]) == Came::Wanted);
}

// -2^127 is a number of 128 bits, but has no place.
#[test]
fn the_next_number_has_none(rt: HostRuntime) {
    let numbers = [FACTORS[0], FACTORS[1], FACTORS[0]];
    assert!(rt; outcome(rt.alloc(), b"$v*$w+$b", &numbers, &[None]) == Came::Overflow);
    assert!(rt; outcome(rt.alloc(), b"-$v*$w-$b", &numbers, &[Some(i128::MIN)]) == Came::Overflow);
    let powers = [FACTORS[0], Some(9_223_372_036_854_775_808)];
    assert!(rt; outcome(rt.alloc(), b"$v*-$w", &powers, &[Some(i128::MIN)]) == Came::Overflow);
}

#[test]
fn an_operand_is_brought_to_the_greater_scale(rt: HostRuntime) {
    let numbers = [Some(2), None, None, Some(5), Some(-1), Some(15)];
    let sums = [
        Some(200_000_000_000_005),
        Some(149_999_999_999_995),
        Some(-20_000_000_000_000_000_000_000_000_001),
    ];
    let text = b"$v+$half,$one-$half,$fine-$v";
    assert!(rt; outcome(rt.alloc(), text, &numbers, &sums) == Came::Wanted);
    let product = [Some(30), Some(-75)];
    assert!(rt; outcome(rt.alloc(), b"$v*$one,-$half*$one", &numbers, &product) == Came::Wanted);
}

// 17014118346 times 10^28 is below 2^127, and 17014118347 times 10^28 isn't.
#[test]
fn an_operand_that_is_brought_too_far_has_no_place(rt: HostRuntime) {
    let numbers = [None, None, None, None, Some(0)];
    let brought = [Some(170_141_183_460_000_000_000_000_000_000_000_000_000)];
    assert!(rt; outcome(rt.alloc(), b"$fine+17014118346", &numbers, &brought) == Came::Wanted);
    assert!(rt; outcome(rt.alloc(), b"$fine+17014118347", &numbers, &[None]) == Came::Overflow);
    assert!(rt;
        outcome(
            rt.alloc(),
            b"17014118347-17014118347+$fine",
            &numbers,
            &[Some(0)]
        ) == Came::Wanted
    );
    assert!(rt;
        outcome(
            rt.alloc(),
            b"17014118347+$fine-17014118347",
            &numbers,
            &[None]
        ) == Came::Overflow
    );
}

// Beside NULL nothing is checked, but what is inside an operand counts.
#[test]
fn null_beside_a_number_is_null(rt: HostRuntime) {
    let numbers = [Some(7), None, Some(MOST_BIG), None, None];
    for text in [
        b"$w".as_slice(),
        b"-$w",
        b"$v+$w",
        b"$w-$v",
        b"$w*$v",
        b"$fine+17014118347",
    ] {
        assert!(rt; outcome(rt.alloc(), text, &numbers, &[None]) == Came::Wanted);
    }
    for text in [
        b"$b*$b*$b+$w".as_slice(),
        b"$w+$b*$b*$b",
        b"$w*($b*$b*$b)",
        b"((($b*$b*$b)))",
        b"$w*(1-(($b*$b*$b)))",
    ] {
        assert!(rt; outcome(rt.alloc(), text, &numbers, &[None]) == Came::Overflow);
    }
}
