// What holds of every list of cells and of pages.
ghost use Rattle.std.specs.Prelude.{◌≡◌, ◌+◌, ◌<◌, ℕ, List, length};
ghost use Rattle.ts_space.specs.declared.place.Place.{Place as ThePlace};
ghost use Rattle.ts_space.specs.Place.{IsRising};
ghost use Rattle.ts_row.specs.declared.kind.Column.{Column as TheColumn};
ghost use Rattle.ts_row.specs.Row.{Row};
ghost use Rattle.ts_regular.specs.RegularPage.{Cell, AreRising, element_at, elements_from, with_element};
ghost use Rattle.ts_regular.specs.RegularPage.{without_element, filled_count};
ghost use Rattle.ts_regular.specs.Places.{OffsetPage, AreOn, all_in};
ghost use Rattle.ts_regular.specs.OnePage.{cell_at, with_row, without_row};

/// An edit of a cell is that of the element at its offset.
pub fn cells_are_elements_at_offsets()
    ensures found { (base index : ℕ) (cells : List Cell) → index < length cells
        → element_at (base + index) (elements_from base cells) ≡ cell_at cells index }
    ensures put { (base index : ℕ) (row : Row) (cells : List Cell) → index < length cells →
        elements_from base (with_row index row cells) ≡ with_element (base + index) row (elements_from base cells) }
    ensures taken { (base index : ℕ) (cells : List Cell) → index < length cells →
        elements_from base (without_row index cells) ≡ without_element (base + index) (elements_from base cells) }
    ensures count { (base : ℕ) (cells : List Cell) → length (elements_from base cells) ≡ filled_count cells }
{}

/// The elements of all pages rise, where the places of the pages do.
pub fn pages_of_offsets_rise()
    ensures { (slot : ℕ) (columns : List TheColumn) (pages : ℕ → List ℕ) (places : List ThePlace)
        (ps : List OffsetPage) →
        AreOn slot columns pages places ps → IsRising places → AreRising (all_in ps) }
{}
