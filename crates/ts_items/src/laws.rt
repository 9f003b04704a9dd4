// What holds of every script, in the words of one who writes it.
ghost use Rattle.std.specs.Prelude.{◌≡◌, [], List, ℕ, ◌++◌, Some};
ghost use Rattle.std.specs.List.{flat_map};
ghost use Rattle.ts_items.specs.Items.{items, items_from, place_from, is_unended};
ghost use Rattle.ts_items.specs.Parts.{Part, Rest, Splits, item_of_part, item_of_rest, is_unended_rest};

/// The items of the front of a script are the first items of the script.
pub fn items_of_a_front_come_first()
    ensures { (front rest : List ℕ) →
        items (front ++ rest) ≡ items front ++ items_from (place_from (Some []) front) rest }
{}

/// Every script is made of parts and a rest. However it is split into them, its items are theirs.
pub fn items_are_those_of_the_parts()
    ensures items { (bytes : List ℕ) (parts : List Part) (rest : Rest) → Splits bytes parts rest →
        items bytes ≡ flat_map item_of_part parts ++ item_of_rest rest }
    ensures last { (bytes : List ℕ) (parts : List Part) (rest : Rest) → Splits bytes parts rest →
        is_unended bytes ≡ is_unended_rest rest }
    ensures some { (bytes : List ℕ) → (parts : List Part) × (rest : Rest) × Splits bytes parts rest }
{}
