// What holds of all offsets and their stamps, and of all told pages and their places.
ghost use Rattle.std.specs.Prelude.{◌≡◌, ◌<◌, ◌<ℤ◌, ℕ, ℤ, List, length, Some};
ghost use Rattle.ts_space.specs.declared.place.Place.{Place as ThePlace};
ghost use Rattle.ts_space.specs.Place.{IsRising};
ghost use Rattle.ts_calendar.specs.Calendars.{IsLaid};
ghost use Rattle.ts_offset.specs.Grid.{GridPlan, stamp_of};
ghost use Rattle.ts_row.specs.declared.kind.Column.{Column as TheColumn};
ghost use Rattle.ts_row.specs.Row.{Row as TheRow};
ghost use Rattle.ts_irregular.specs.Edit as stamps;
ghost use Rattle.ts_row.specs.Row as elements;
ghost use Rattle.ts_regular.specs.RegularPage.{OffsetElement, element_at, with_element, without_element};
ghost use Rattle.ts_regular.specs.Places.{OffsetPage, AreOn, all_in};
ghost use Rattle.ts_regular.specs.Range.{within, outside};
ghost use Rattle.ts_sheets.specs.Stamped.{within_range, without_range, stamped, HaveStarts};
ghost use Rattle.ts_regular_edits.specs.Range.{AreOffsetsOf};
ghost use Rattle.ts_sheets.specs.Charge.{charge_of, pages_with};

/// Stamps rise with their offsets, so distinct offsets have distinct stamps; and what is found, put and taken away at
/// an offset is found, put and taken away at its stamp.
pub fn edits_at_offsets_are_edits_at_stamps()
    ensures rising { (grid : GridPlan) → IsLaid grid.calendar → (m n : ℕ) (s t : ℤ) → m < n → stamp_of grid m ≡ Some s
        → stamp_of grid n ≡ Some t → s <ℤ t }
    ensures found { (grid : GridPlan) → IsLaid grid.calendar → (n : ℕ) (s : ℤ) (es : List OffsetElement)
        → HaveStarts grid es → stamp_of grid n ≡ Some s →
        elements.element_at s (stamped grid es) ≡ element_at n es }
    ensures put { (grid : GridPlan) → IsLaid grid.calendar → (n : ℕ) (s : ℤ) (row : TheRow) (es : List OffsetElement)
        → HaveStarts grid es → stamp_of grid n ≡ Some s →
        stamped grid (with_element n row es) ≡ stamps.with_element s row (stamped grid es) }
    ensures taken { (grid : GridPlan) → IsLaid grid.calendar → (n : ℕ) (s : ℤ) (es : List OffsetElement)
        → HaveStarts grid es → stamp_of grid n ≡ Some s →
        stamped grid (without_element n es) ≡ stamps.without_element s (stamped grid es) }
{}

/// The elements at the offsets of a range are those at its stamps, as many; and the others are those at other stamps.
pub fn ranges_of_offsets_are_ranges_of_stamps()
    ensures within { (grid : GridPlan) → IsLaid grid.calendar → (from to : ℤ) (lower upper : ℕ)
        → AreOffsetsOf grid from to lower upper →
        (es : List OffsetElement) → HaveStarts grid es → stamped grid (within lower upper es)
        ≡ within_range from to (stamped grid es) }
    ensures number { (grid : GridPlan) → IsLaid grid.calendar → (from to : ℤ) (lower upper : ℕ)
        → AreOffsetsOf grid from to lower upper →
        (es : List OffsetElement) → HaveStarts grid es → length (within lower upper es)
        ≡ length (within_range from to (stamped grid es)) }
    ensures outside { (grid : GridPlan) → IsLaid grid.calendar → (from to : ℤ) (lower upper : ℕ)
        → AreOffsetsOf grid from to lower upper →
        (es : List OffsetElement) → HaveStarts grid es → stamped grid (outside lower upper es)
        ≡ without_range from to (stamped grid es) }
    ensures starts { (grid : GridPlan) (lower upper : ℕ) (es : List OffsetElement) → HaveStarts grid es
        → HaveStarts grid (outside lower upper es) }
{}

/// A series is charged for as many pages as it has places, and with an element more for as many as it then has.
pub fn places_are_the_charge()
    ensures charge { (slot : ℕ) (columns : List TheColumn) (pages : ℕ → List ℕ) (places : List ThePlace)
        (ps : List OffsetPage) →
        AreOn slot columns pages places ps → IsRising places → charge_of columns (all_in ps) ≡ length places }
    ensures more { (slot : ℕ) (columns : List TheColumn) (pages : ℕ → List ℕ) (places : List ThePlace)
        (ps : List OffsetPage) →
        AreOn slot columns pages places ps → IsRising places → (offset : ℕ) (row : TheRow) →
        charge_of columns (with_element offset row (all_in ps)) ≡ pages_with columns offset places }
{}
