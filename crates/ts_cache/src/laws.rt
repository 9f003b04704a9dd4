// What holds of every cache.
ghost use Rattle.std.specs.Prelude.{◌≡◌, ◌≢◌, ◌<◌, ◌++◌, ◌∷◌, [], ℕ, List, Some, None, IsSome, IsNone, IfSome, length};
ghost use Rattle.ts_cache.specs.Cache.{Cache as TheCache, IsCache, page_of, without, brought_forward, put_in_front};

/// A page that was put is found, and one of another number is as it was, or was pushed out.
pub fn a_page_is_found_as_it_was_put()
    ensures own { (capacity number : ℕ) (bytes : List ℕ) (pages : List (ℕ × List ℕ)) → 0 < capacity →
        page_of number (put_in_front capacity number bytes pages) ≡ Some bytes }
    ensures others { (capacity number other : ℕ) (bytes : List ℕ) (pages : List (ℕ × List ℕ)) → other ≢ number →
        IfSome (page_of other (put_in_front capacity number bytes pages)) (λ kept. page_of other pages ≡ Some kept) }
{}

/// A put replaces the page of its number; where there was none it drops the last page of a full cache, and else none.
pub fn a_put_drops_the_last_of_a_full_cache()
    ensures replaced { (c : TheCache) (number : ℕ) (bytes : List ℕ) → IsCache c → IsSome (page_of number c.pages) →
        put_in_front c.capacity number bytes c.pages ≡ (number, bytes) ∷ without number c.pages }
    ensures room { (capacity number : ℕ) (bytes : List ℕ) (pages : List (ℕ × List ℕ)) → IsNone (page_of number pages) →
        length pages < capacity → put_in_front capacity number bytes pages ≡ (number, bytes) ∷ pages }
    ensures full { (capacity number : ℕ) (bytes : List ℕ) (front : List (ℕ × List ℕ)) (last : ℕ × List ℕ) →
        IsNone (page_of number (front ++ last ∷ [])) → length (front ++ last ∷ []) ≡ capacity →
        put_in_front capacity number bytes (front ++ last ∷ []) ≡ (number, bytes) ∷ front }
{}

/// A page that is asked for, and each other, is found as before; a page that was forgotten isn't found, and each other
/// is as before.
pub fn a_page_is_found_until_it_is_forgotten()
    ensures got { (number other : ℕ) (pages : List (ℕ × List ℕ)) →
        page_of other (brought_forward number pages) ≡ page_of other pages }
    ensures forgotten { (number : ℕ) (pages : List (ℕ × List ℕ)) → page_of number (without number pages) ≡ None }
    ensures others { (number other : ℕ) (pages : List (ℕ × List ℕ)) → other ≢ number →
        page_of other (without number pages) ≡ page_of other pages }
{}
