// What holds of every fold and of every list that is bound.
ghost use Rattle.std.specs.Prelude.{◌≡◌, ◌⊎◌, ◌<◌, false, ℕ, ℤ, pos, List, [], ◌∷◌, ◌++◌, length, All, IsTrue, Ok, Err};
ghost use Rattle.ts_base.specs.declared.refusal.Refusal.{Refusal as TheRefusal};
ghost use Rattle.ts_row.specs.declared.kind.Column.{Column as TheColumn};
ghost use Rattle.ts_row.specs.declared.value.Value.{Value as TheValue};
ghost use Rattle.ts_row.specs.declared.value.Value.TheVariants.{Null, Number};
ghost use Rattle.ts_row.specs.Row.{Row as TheRow, fits};
ghost use Rattle.ts_expr.specs.declared.function.Function.{Function as TheFunction};
ghost use Rattle.ts_expr.specs.declared.function.Function.TheVariants.{Avg, Count, Min, Max, First, Last};
ghost use Rattle.ts_expr.specs.declared.item.Item.{Item as TheItem};
ghost use Rattle.ts_expr.specs.declared.item.BoundItem.{BoundItem as TheBoundItem};
ghost use Rattle.ts_expr.specs.Aggregates.{is_null, values_of, total, mean, made, Binding, bound, binding};
ghost use Rattle.ts_expr.specs.Laws.{IsNearestMean, AreAlike, IsLeast, IsGreatest, AreBoundAs};

/// The mean of values is the whole number nearest to a million times their sum divided by their number, a half rounded
/// away from zero, and no other number is.
pub fn a_mean_is_the_nearest()
    ensures nearest { (values : List TheValue) → 0 < length values
        → IsNearestMean (total values) (length values) (mean values) }
    ensures only { (values : List TheValue) (z : ℤ) → 0 < length values
        → IsNearestMean (total values) (length values) z →
        z ≡ mean values }
    ensures made { (values : List TheValue) → 0 < length values → made Avg values ≡ Number (mean values) }
{}

/// Of values that are all numbers or all texts, the least is one of them and none is less, and the greatest is one of
/// them and none is greater.
pub fn the_least_is_one_of_the_values()
    ensures least { (values : List TheValue) → 0 < length values → AreAlike values → IsLeast values (made Min values) }
    ensures greatest { (values : List TheValue) → 0 < length values → AreAlike values
        → IsGreatest values (made Max values) }
{}

/// The values of a column over rows of one row type, NULLs and hidden rows left out, are all numbers or all texts.
pub fn the_values_of_a_column_are_alike()
    ensures { (columns : List TheColumn) (column : ℕ) (rows : List TheRow) → All (λ r. IsTrue (fits columns r)) rows →
        AreAlike (values_of column rows) }
{}

/// The first value is the one at the front, the last the one at the back; a count is the number of the values, and
/// without values everything else is NULL.
pub fn the_first_value_is_at_the_front()
    ensures first { (v : TheValue) (values : List TheValue) → is_null v ≡ false → made First (v ∷ values) ≡ v }
    ensures last { (values : List TheValue) (v : TheValue) → made Last (values ++ v ∷ []) ≡ v }
    ensures count { (values : List TheValue) → made Count values ≡ Number (pos (length values)) }
    ensures none { (function : TheFunction) → (made function [] ≡ Null) ⊎ (function ≡ Count) }
{}

/// A list is refused as the first item of it that can't be bound, whatever stands behind; where each item can be, each
/// is, in their order.
pub fn the_first_item_that_cannot_be_bound_is_refused()
    ensures refused { (columns : List TheColumn) (front back : List TheItem) (ones : List TheBoundItem) (i : TheItem)
        (why : TheRefusal) →
        AreBoundAs columns front ones → bound columns i ≡ Err why → binding columns (front ++ i ∷ back) ≡ Err why }
    ensures bound { (columns : List TheColumn) (items : List TheItem) (ones : List TheBoundItem) →
        AreBoundAs columns items ones → binding columns items ≡ Ok (record { columns = columns; items = ones }) }
    ensures each { (columns : List TheColumn) (items : List TheItem) (list : Binding) → binding columns items
        ≡ Ok list →
        AreBoundAs columns items list.items × (list.columns ≡ columns) }
{}
