// What holds of every list of elements that is edited.
ghost use Rattle.std.specs.Prelude.{◌≡◌, ◌+◌, ◌≤◌, ℤ, Bool, Some, IsSome, option_and_then, List, length};
ghost use Rattle.std.specs.Ordering.{int_cmp};
ghost use Rattle.std.specs.FinMap.{from_entries, entries, insert, remove, get};
ghost use Rattle.ts_row.specs.declared.kind.Column.{Column as TheColumn};
ghost use Rattle.ts_row.specs.Row.{Row, marked, Element, seen};
ghost use Rattle.ts_cells.specs.IrregularPage.{IsElement, AreInOrder, AreRising};
ghost use Rattle.ts_irregular.specs.Edit.{element_at, with_element, without_element, row_if_seen};

/// Edits of the list are those of the map that it makes.
pub fn edits_are_those_of_a_map()
    ensures put { (stamp : ℤ) (row : Row) (es : List Element) →
        from_entries {R = int_cmp} (with_element stamp row es) ≡ insert (from_entries es) stamp row }
    ensures taken { (stamp : ℤ) (es : List Element) →
        from_entries {R = int_cmp} (without_element stamp es) ≡ remove (from_entries es) stamp }
    ensures found { (stamp : ℤ) (es : List Element) → get (from_entries {R = int_cmp} es) stamp ≡ element_at stamp es }
{}

/// Edits keep the order, and there is at most one element more, or one less.
pub fn edits_keep_the_order()
    ensures put { (columns : List TheColumn) (stamp : ℤ) (row : Row) (es : List Element) → AreInOrder columns es →
        IsElement columns (stamp, row) → AreInOrder columns (with_element stamp row es) }
    ensures taken { (columns : List TheColumn) (stamp : ℤ) (es : List Element) → AreInOrder columns es →
        AreInOrder columns (without_element stamp es) }
    ensures more { (stamp : ℤ) (row : Row) (es : List Element) → length (with_element stamp row es) ≤ length es + 1 }
    ensures fewer { (stamp : ℤ) (es : List Element) → length (without_element stamp es) ≤ length es }
{}

/// A mark that is set keeps the order; any change of a row that is there keeps the number of elements.
pub fn a_mark_keeps_the_rest()
    ensures order { (columns : List TheColumn) (stamp : ℤ) (hidden : Bool) (row : Row) (es : List Element)
        → AreInOrder columns es →
        element_at stamp es ≡ Some row → AreInOrder columns (with_element stamp (marked hidden row) es) }
    ensures count { (stamp : ℤ) (row : Row) (es : List Element) → AreRising es → IsSome (element_at stamp es) →
        length (with_element stamp row es) ≡ length es }
{}

/// The entries of the map of elements are these, in their order; and of those that aren't hidden one is at a stamp
/// where one is there that isn't hidden.
pub fn the_map_has_the_elements()
    ensures entries { (es : List Element) → AreRising es → entries (from_entries {R = int_cmp} es) ≡ es }
    ensures seen { (stamp : ℤ) (es : List Element) → AreRising es →
        element_at stamp (seen es) ≡ option_and_then row_if_seen (element_at stamp es) }
{}
