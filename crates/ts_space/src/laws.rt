// What holds of every list of places and every charge.
ghost use Rattle.std.specs.Prelude.{◌≡◌, ◌≢◌, ◌+◌, ◌<◌, ◌≤◌, ◌++◌, ◌∷◌, ℕ, ℤ, List, Some, None, length, map};
ghost use Rattle.std.specs.Option.{option_map_or};
ghost use Rattle.ts_space.specs.declared.place.Place.{Place as ThePlace};
ghost use Rattle.ts_space.specs.Place.{IsRising, AreAbove, AreBelow, place_at, put_place, drop_place, count_of};
ghost use Rattle.ts_space.specs.Charge.{irregular_charge, irregular_places_charge, IsChain};

/// A place that is put is found where it begins, and every other one is as it was.
pub fn a_put_changes_one_place()
    ensures own { (places : List ThePlace) (place : ThePlace) → IsRising places
        → place_at place.at (put_place place places) ≡ Some place }
    ensures others { (places : List ThePlace) (place : ThePlace) (at : ℤ) → IsRising places → at ≢ place.at →
        place_at at (put_place place places) ≡ place_at at places }
    ensures rising { (places : List ThePlace) (place : ThePlace) → IsRising places → IsRising (put_place place places) }
    ensures count { (places : List ThePlace) (place : ThePlace) → IsRising places →
        count_of (put_place place places) + option_map_or (λ old. old.count) (place_at place.at places) 0
        ≡ count_of places + place.count }
{}

/// A place that is dropped is gone, and every other one is as it was.
pub fn a_drop_takes_out_one_place()
    ensures own { (places : List ThePlace) (at : ℤ) → place_at at (drop_place at places) ≡ None }
    ensures others { (places : List ThePlace) (at other : ℤ) → other ≢ at → place_at other (drop_place at places)
        ≡ place_at other places }
    ensures rising { (places : List ThePlace) (at : ℤ) → IsRising places → IsRising (drop_place at places) }
    ensures count { (places : List ThePlace) (at : ℤ) → IsRising places →
        count_of (drop_place at places) + option_map_or (λ old. old.count) (place_at at places) 0 ≡ count_of places }
{}

/// Before and after the place that is put or dropped the list is as it was.
pub fn places_are_edited_where_they_stand()
    ensures replaced { (front : List ThePlace) (old place : ThePlace) (back : List ThePlace)
        → IsRising (front ++ old ∷ back) → old.at ≡ place.at →
        put_place place (front ++ old ∷ back) ≡ front ++ place ∷ back }
    ensures between { (front : List ThePlace) (place : ThePlace) (back : List ThePlace) → IsRising (front ++ back) →
        AreBelow place.at front → AreAbove place.at back → put_place place (front ++ back) ≡ front ++ place ∷ back }
    ensures dropped { (front : List ThePlace) (old : ThePlace) (back : List ThePlace) → IsRising (front ++ old ∷ back) →
        drop_place old.at (front ++ old ∷ back) ≡ front ++ back }
{}

/// More elements never cost less.
pub fn more_elements_cost_no_less()
    ensures { (q n m : ℕ) → 0 < q → n ≤ m → irregular_charge q n ≤ irregular_charge q m }
{}

/// Pages of which none is empty, and each two neighbours hold more than one page can, are at most as many as their
/// elements are charged for.
pub fn a_chain_is_within_its_charge()
    ensures { (q : ℕ) (places : List ThePlace) → 0 < q → IsChain q (map (λ place. place.count) places) →
        length places ≤ irregular_places_charge q places }
{}
