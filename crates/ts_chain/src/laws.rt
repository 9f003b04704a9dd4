// What holds of every chain.
ghost use Rattle.std.specs.Prelude.{◌≡◌, All, Bool, ◌<◌, ◌≤◌, ℤ, List, ◌∷◌, ◌++◌, length};
ghost use Rattle.ts_space.specs.Charge.{irregular_charge};
ghost use Rattle.ts_space.specs.Place.{pages_of};
ghost use Rattle.ts_space.specs.declared.place.Place.{Place as ThePlace};
ghost use Rattle.ts_page.specs.Pages.{Contents, IsLawful};
ghost use Rattle.ts_row.specs.declared.kind.Column.{Column as TheColumn};
ghost use Rattle.ts_row.specs.Row.{Row, Element};
ghost use Rattle.ts_cells.specs.IrregularPage.{IsElement, page_room, AreInOrder};
ghost use Rattle.ts_irregular.specs.Edit.{element_at, with_element, without_element};
ghost use Rattle.ts_sheets.specs.Places.{AreMoved, ArePlaces, CanBeFreed, CanBeRead};
ghost use Rattle.ts_sheets.specs.Stamped.{AreSized, IsDense, IsChain, IsAround, all_in};

/// The elements of its pages, one page after the other, are in order.
pub fn a_chain_is_in_order()
    ensures { (columns : List TheColumn) (chain : List (List Element)) → IsChain columns chain
        → AreInOrder columns (all_in chain) }
{}

/// It has at most as many pages as its elements are charged for.
pub fn a_chain_is_within_its_charge()
    ensures { (columns : List TheColumn) (chain : List (List Element)) → 0 < page_room columns → IsChain columns chain →
        length chain ≤ irregular_charge (page_room columns) (length (all_in chain)) }
{}

/// An edit at a stamp is the edit of the page that the stamp belongs to, and so is a search.
pub fn an_edit_is_that_of_one_page()
    ensures found { (stamp : ℤ) (front : List (List Element)) (es : List Element) (back : List (List Element))
        → IsAround stamp front back →
        element_at stamp (all_in (front ++ es ∷ back)) ≡ element_at stamp es }
    ensures put { (stamp : ℤ) (row : Row) (front : List (List Element)) (es : List Element) (back : List (List Element))
        → IsAround stamp front back →
        with_element stamp row (all_in (front ++ es ∷ back)) ≡ all_in (front ++ with_element stamp row es ∷ back) }
    ensures taken { (stamp : ℤ) (front : List (List Element)) (es : List Element) (back : List (List Element))
        → IsAround stamp front back →
        without_element stamp (all_in (front ++ es ∷ back)) ≡ all_in (front ++ without_element stamp es ∷ back) }
{}

/// Pages side by side that become others, which have the edited elements, each some and none too many, and don't fit
/// one page with a neighbour, leave a chain of the edited elements.
pub fn an_edit_of_pages_side_by_side_makes_a_chain()
    ensures put { (columns : List TheColumn) (stamp : ℤ) (row : Row) (front old new back : List (List Element))
        → IsChain columns (front ++ (old ++ back)) →
        IsAround stamp front back → IsElement columns (stamp, row) → AreSized (page_room columns) new
        → all_in new ≡ with_element stamp row (all_in old) →
        IsDense (page_room columns) (front ++ (new ++ back)) →
        IsChain columns (front ++ (new ++ back))
        × (all_in (front ++ (new ++ back)) ≡ with_element stamp row (all_in (front ++ (old ++ back)))) }
    ensures taken { (columns : List TheColumn) (stamp : ℤ) (front old new back : List (List Element))
        → IsChain columns (front ++ (old ++ back)) →
        IsAround stamp front back → AreSized (page_room columns) new → all_in new ≡ without_element stamp (all_in old) →
        IsDense (page_room columns) (front ++ (new ++ back)) →
        IsChain columns (front ++ (new ++ back))
        × (all_in (front ++ (new ++ back)) ≡ without_element stamp (all_in (front ++ (old ++ back)))) }
{}

/// The places of a series are those of element pages that `take` can't give, and no page has two, also after a change
/// of them; and their pages can be read, and freed.
pub fn changed_places_are_places()
    ensures moved { (tells : Bool) (columns : List TheColumn) (old new : List ThePlace) (v w : Contents)
        → IsLawful tells v → ArePlaces columns v old →
        AreMoved columns old new v w → w.count ≡ v.count → ArePlaces columns w new }
    ensures readable { (columns : List TheColumn) (c : Contents) (places : List ThePlace) → ArePlaces columns c places
        → All (CanBeRead c) places }
    ensures freed { (columns : List TheColumn) (c : Contents) (places : List ThePlace) → ArePlaces columns c places
        → All (CanBeFreed c) (pages_of places) }
{}
