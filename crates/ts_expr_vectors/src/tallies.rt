// Tallies that take many values at once.
use crate::made::{list, row_type};
use std::alloc::Global;
use ts_base::Trouble;
use ts_expr::{AggList, Bound, BoundItem, Function, Item, Running, Sums, Tally};
use ts_row::{ColumnKind, Value};

fn is_number(value: &Value, wanted: i128) -> bool {
    match value {
        Value::Number(number) => *number == wanted,
        _ => false,
    }
}

// One, and then two more with a sum of 1: their mean is 2 / 3.
#[test]
fn a_mean_takes_one_value_and_two_at_once(rt: HostRuntime) {
    let mut tally = Tally::new(Function::Avg);
    assert!(rt; tally.take(&Value::Number(1)).is_ok());
    tally.add(2, 1);
    assert!(rt; tally.count() == 3);
    assert!(rt; is_number(&tally.renew(Function::Sum), 666_667));
    assert!(rt; tally.count() == 0);
    tally.add(3, -8);
    assert!(rt; is_number(&tally.into_value(), -8));
}

#[test]
fn a_count_takes_five_values_at_once_and_the_least_value_none(rt: HostRuntime) {
    let mut tally = Tally::new(Function::Count);
    tally.add(5, 17);
    assert!(rt; is_number(&tally.renew(Function::Min), 5));
    tally.add(5, 17);
    assert!(rt; matches!(tally.into_value(), Value::Null));
}

#[test]
fn a_sum_takes_many_values_at_once(rt: HostRuntime) {
    let mut sums = Sums::new();
    sums.add(7);
    sums.add_many(4, -9);
    assert!(rt; sums.count() == 5);
    assert!(rt; sums.sum() == -2);
    assert!(rt; sums.mean() == -400_000);
}

fn bound(alloc: Global, text: &[u8]) -> Result<Bound, Trouble> {
    let kind = row_type(alloc, &[(b"v", ColumnKind::BigInt)])?;
    list(alloc, text)?.bind(&kind)
}

#[test]
fn a_bound_list_has_its_row_type_and_a_tally_for_each_item(rt: HostRuntime) {
    let Ok(bound) = bound(rt.alloc(), b"max($v),count($v)") else {
        panic!(rt; "not bound");
    };
    assert!(rt; bound.kind().columns().len() == 1);
    assert!(rt; bound.kind().width() == 9);
    let Ok(tallies) = bound.tallies() else {
        panic!(rt; "no memory");
    };
    let [most, count] = tallies.as_slice() else {
        panic!(rt; "not two");
    };
    assert!(rt; matches!(most, Tally::Max(Value::Null)));
    assert!(rt; matches!(count, Tally::Count(0)));
}

#[test]
fn the_types_may_go_to_other_threads() {
    goes_to_threads::<AggList>();
    goes_to_threads::<Item>();
    goes_to_threads::<Bound>();
    goes_to_threads::<BoundItem>();
    goes_to_threads::<Function>();
    goes_to_threads::<Running>();
    goes_to_threads::<Tally>();
    goes_to_threads::<Sums>();
}

fn goes_to_threads<T: Send + Sync>() {}
