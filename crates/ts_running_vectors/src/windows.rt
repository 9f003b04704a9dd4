// Sums and means of the last values.
ghost use Rattle.std.specs.Prelude.{◌≤◌, IfSome};
ghost use Rattle.ts_running.specs.Rows.{IsSmall};

use std::alloc::{AllocError, Global};
use std::test::Fail;
use ts_running::{
    Running, a_window_holds_the_last_values, a_window_makes_the_running_value,
    an_empty_window_has_no_sum,
};

/// A value that is pushed, and the sum and the number after it.
type Push = (Option<i64>, Option<i128>, u32);

/// The greatest value: 10^28 - 1.
const MOST: i128 = 9_999_999_999_999_999_999_999_999_999;

fn wide(value: Option<i64>) -> Option<i128>
    ensures { IfSome result IsSmall }
{
    match value {
        Some(number) => Some(i128::from(number)),
        None => None,
    }
}

// Pushes the values, and says after which the sum or the number is another one.
fn first_wrong(alloc: Global, n: u32, pushes: &[Push]) -> Result<Option<usize>, AllocError>
    requires { (1 ≤ n) × (n ≤ 65536) }
{
    let mut running = Running::new(alloc, n)?;
    for (number, (value, sum, count)) in pushes.iter().enumerate() {
        running.push(wide(*value));
        if running.sum() != *sum || running.count() != *count {
            return Ok(Some(number));
        }
    }
    Ok(None)
}

#[test]
fn a_sum_is_that_of_the_last_two_places(rt: HostRuntime) -> Result<(), Fail> {
    let pushes = [
        (Some(1), Some(1), 1),
        (Some(2), Some(3), 2),
        (Some(3), Some(5), 2),
        (None, Some(3), 1),
        (None, None, 0),
        (Some(-7), Some(-7), 1),
        (Some(7), Some(0), 2),
    ];
    assert_eq!(rt; first_wrong(rt.alloc(), 2, &pushes)?, None);
    Ok(())
}

#[test]
fn a_window_of_one_place_holds_the_last(rt: HostRuntime) -> Result<(), Fail> {
    let pushes = [
        (None, None, 0),
        (Some(4), Some(4), 1),
        (Some(-5), Some(-5), 1),
        (None, None, 0),
    ];
    assert_eq!(rt; first_wrong(rt.alloc(), 1, &pushes)?, None);
    Ok(())
}

#[test]
fn the_greatest_values_are_added(rt: HostRuntime) -> Result<(), Fail> {
    let mut running = Running::new(rt.alloc(), 3)?;
    assert_eq!(rt; running.sum(), None);
    running.push(Some(MOST));
    running.push(Some(MOST));
    running.push(Some(MOST));
    assert_eq!(rt; running.sum(), Some(3 * MOST));
    running.push(Some(-MOST));
    running.push(Some(-MOST));
    assert_eq!(rt; running.sum(), Some(-MOST));
    assert_eq!(rt; running.count(), 3);
    Ok(())
}

#[test]
fn a_mean_is_that_of_the_last_two_places(rt: HostRuntime) -> Result<(), Fail> {
    let mut running = Running::new(rt.alloc(), 2)?;
    assert_eq!(rt; running.mean(), None);
    running.push(Some(1));
    assert_eq!(rt; running.mean(), Some(1_000_000));
    running.push(Some(2));
    assert_eq!(rt; running.mean(), Some(1_500_000));
    running.push(Some(3));
    assert_eq!(rt; running.mean(), Some(2_500_000));
    running.push(None);
    assert_eq!(rt; running.mean(), Some(3_000_000));
    running.push(None);
    assert_eq!(rt; running.mean(), None);
    Ok(())
}

// A mean has as many digits as its values have, and six more behind them.
#[test]
fn the_mean_of_numbers_of_28_digits_is_made(rt: HostRuntime) -> Result<(), Fail> {
    let mut running = Running::new(rt.alloc(), 3)?;
    running.push(Some(MOST));
    running.push(Some(MOST));
    assert_eq!(rt;
        running.mean(),
        Some(9_999_999_999_999_999_999_999_999_999_000_000)
    );
    running.push(Some(MOST - 1));
    assert_eq!(rt;
        running.mean(),
        Some(9_999_999_999_999_999_999_999_999_998_666_667)
    );
    running.push(Some(-MOST));
    assert_eq!(rt;
        running.mean(),
        Some(3_333_333_333_333_333_333_333_333_332_666_667)
    );
    running.push(Some(-MOST));
    running.push(Some(-MOST));
    assert_eq!(rt;
        running.mean(),
        Some(-9_999_999_999_999_999_999_999_999_999_000_000)
    );
    Ok(())
}

// 1 / 128 is 0.0078125.
#[test]
fn half_a_digit_of_a_mean_is_rounded_away_from_zero(rt: HostRuntime) -> Result<(), Fail> {
    let mut running = Running::new(rt.alloc(), 128)?;
    for _ in 0..127 {
        running.push(Some(0));
    }
    running.push(Some(1));
    assert_eq!(rt; running.mean(), Some(7_813));
    running.push(Some(-2));
    assert_eq!(rt; running.mean(), Some(-7_813));
    Ok(())
}

// A window that is folded anew at each push doesn't end within a test's time.
#[test]
fn ten_million_values_pass_through_a_wide_window(rt: HostRuntime) -> Result<(), Fail> {
    let mut running = Running::new(rt.alloc(), 65536)?;
    let mut last = None;
    for _ in 0..10_000_000 {
        running.push(Some(1));
        last = running.sum();
    }
    assert_eq!(rt; last, Some(65536));
    Ok(())
}

#[test]
fn the_laws_are_called(_rt: HostRuntime) {
    a_window_holds_the_last_values();
    a_window_makes_the_running_value();
    an_empty_window_has_no_sum();
}
