// What is known, for one function, of the values so far.
ghost use Rattle.std.specs.Prelude.{◌≡◌, ◌<◌, ◌≤◌, ◌+◌, ◌*◌, ◌^◌, List, [], ◌++◌, OnOk, IsTrue, length, unsigned_abs};
ghost use Rattle.ts_row.specs.declared.value.Value.{Value};
ghost use Rattle.ts_expr.specs.declared.function.Function.{Function};
ghost use Rattle.ts_expr.specs.Aggregates.{is_null, number_of, total, value_cmp, lesser, greater, earlier};
ghost use Rattle.ts_expr.specs.Sums.{most_values};
ghost use Rattle.ts_expr.specs.Running.{tally_of, count_of, taken_into, with_value, is_summed, with_sums, IsSmall};
ghost use Rattle.ts_expr.specs.Running.{value_of, sum_if_any};

use crate::Function;
use crate::sums::Sums;
use std::alloc::AllocError;
use std::cmp::Ordering;
use std::mem;
use ts_row::Value;

/// What is known, for one function, of the values so far.
#[derive(Debug, Drop)]
pub enum Tally {
    /// How many values there were.
    Count(u64),
    /// Their number and their sum.
    Sum(Sums),
    /// Their number and their sum, of which the mean is made.
    Avg(Sums),
    /// The least of them, or NULL where there was none.
    Min(Value),
    /// The greatest of them, or NULL where there was none.
    Max(Value),
    /// The one taken first, or NULL where there was none.
    First(Value),
    /// The one taken last, or NULL where there was none.
    Last(Value),
}

impl Tally {
    /// No value.
    pub fn new(function: Function) -> Tally
        ensures { result ≡ tally_of function [] }
    {
        match function {
            Function::Sum => Tally::Sum(Sums::new()),
            Function::Avg => Tally::Avg(Sums::new()),
            Function::Count => Tally::Count(0),
            Function::Min => Tally::Min(Value::Null),
            Function::Max => Tally::Max(Value::Null),
            Function::First => Tally::First(Value::Null),
            Function::Last => Tally::Last(Value::Null),
        }
    }

    /// How many values it has seen, where it counts them; else 0.
    pub fn count(&self) -> u64
        ensures { result ≡ count_of self.now }
    {
        match self {
            Tally::Count(count) => *count,
            Tally::Sum(sums) => sums.count(),
            Tally::Avg(sums) => sums.count(),
            _ => 0,
        }
    }

    /// One more value; NULL changes nothing.
    pub fn take(&mut self, value: &Value) -> Result<(), AllocError>
        requires few { count_of self.old < 2 ^ 32 }
        requires small { IsSmall value.now }
        ensures { OnOk result (self.new ≡ taken_into self.old value.now) }
    {
        match value {
            Value::Null => Ok(()),
            _ => self.take_value(value),
        }
    }

    // One more value that isn't NULL.
    fn take_value(&mut self, value: &Value) -> Result<(), AllocError>
        requires few { count_of self.old < most_values }
        requires small { IsSmall value.now }
        ensures { OnOk result (self.new ≡ with_value self.old value.now) }
    {
        match self {
            Tally::Count(count) => *count += 1,
            Tally::Sum(sums) => sums.add(number_of(value)),
            Tally::Avg(sums) => sums.add(number_of(value)),
            Tally::Min(kept) => keep_lesser(kept, value)?,
            Tally::Max(kept) => keep_greater(kept, value)?,
            Tally::First(kept) => keep_earlier(kept, value)?,
            Tally::Last(kept) => keep(kept, value)?,
        }
        Ok(())
    }

    /// So many more values, none of them NULL, with this sum; they change a count, a sum or a mean alone. It is as if
    /// they had been taken one after the other.
    pub fn add(&mut self, count: u64, sum: i128)
        requires few { count_of self.old + count ≤ 2 ^ 32 }
        requires small { unsigned_abs sum ≤ count * 10 ^ 28 }
        ensures value { self.new ≡ with_sums self.old count sum }
        ensures at_once { (function : Function) (values more : List Value) → IsTrue (is_summed function)
            → self.old ≡ tally_of function values
            → length more ≡ count → total more ≡ sum → self.new ≡ tally_of function (values ++ more) }
    {
        match self {
            Tally::Count(kept) => *kept += count,
            Tally::Sum(sums) => sums.add_many(count, sum),
            Tally::Avg(sums) => sums.add_many(count, sum),
            _ => {}
        }
    }

    /// What the function makes of the values; then what is known of no value, for this function.
    pub fn renew(&mut self, function: Function) -> Value
        requires { count_of self.old ≤ 2 ^ 32 }
        ensures value { result ≡ value_of self.old }
        ensures none { self.new ≡ tally_of function [] }
    {
        mem::replace(self, Tally::new(function)).into_value()
    }

    /// What the function makes of the values.
    pub fn into_value(self) -> Value
        requires { count_of self ≤ 2 ^ 32 }
        ensures { result ≡ value_of self }
    {
        match self {
            Tally::Count(count) => Value::Number(count as i128),
            Tally::Sum(sums) => sum_if_any(sums),
            Tally::Avg(sums) => mean_if_any(sums),
            Tally::Min(kept) => kept,
            Tally::Max(kept) => kept,
            Tally::First(kept) => kept,
            Tally::Last(kept) => kept,
        }
    }
}

// The sum, where there are values.
fn sum_if_any(sums: Sums) -> Value
    ensures { result ≡ sum_if_any sums sums.sum }
{
    if sums.count() == 0 {
        Value::Null
    } else {
        Value::Number(sums.sum())
    }
}

// The mean, where there are values.
fn mean_if_any(sums: Sums) -> Value
    requires { sums.count ≤ most_values }
    ensures { result ≡ value_of (Tally.Avg sums) }
{
    if sums.count() == 0 {
        Value::Null
    } else {
        Value::Number(sums.mean())
    }
}

// The number of a value; texts have none.
fn number_of(value: &Value) -> i128
    ensures { result ≡ number_of value.now }
{
    match value {
        Value::Number(number) => *number,
        _ => 0,
    }
}

// Numbers are compared as numbers, texts byte by byte.
fn compare(a: &Value, b: &Value) -> Ordering
    ensures { result ≡ value_cmp a.now b.now }
{
    match (a, b) {
        (Value::Number(a), Value::Number(b)) => a.cmp(b),
        (Value::Text(a), Value::Text(b)) => a.as_slice().cmp(b.as_slice()),
        _ => Ordering::Equal,
    }
}

// Keeps the lesser value.
fn keep_lesser(kept: &mut Value, value: &Value) -> Result<(), AllocError>
    ensures { OnOk result (kept.new ≡ lesser kept.old value.now) }
{
    if is_null(kept) || compare(value, kept) == Ordering::Less {
        return keep(kept, value);
    }
    Ok(())
}

// Keeps the greater value.
fn keep_greater(kept: &mut Value, value: &Value) -> Result<(), AllocError>
    ensures { OnOk result (kept.new ≡ greater kept.old value.now) }
{
    if is_null(kept) || compare(value, kept) == Ordering::Greater {
        return keep(kept, value);
    }
    Ok(())
}

// Keeps the first value.
fn keep_earlier(kept: &mut Value, value: &Value) -> Result<(), AllocError>
    ensures { OnOk result (kept.new ≡ earlier kept.old value.now) }
{
    if is_null(kept) {
        return keep(kept, value);
    }
    Ok(())
}

// Keeps this value. A text goes into the memory of the text before it.
fn keep(kept: &mut Value, value: &Value) -> Result<(), AllocError>
    ensures { OnOk result (kept.new ≡ value.now) }
{
    if let (Value::Text(old), Value::Text(text)) = (&mut *kept, value) {
        old.clear();
        return old.extend_from_slice(text.as_slice());
    }
    *kept = value.copy()?;
    Ok(())
}

fn is_null(value: &Value) -> bool
    ensures { result ≡ is_null value.now }
{
    matches!(value, Value::Null)
}
