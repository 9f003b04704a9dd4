// The lower of two pages.
ghost use Rattle.std.specs.Prelude.{◌≡◌, ◌⊎◌, None, IsSome};
ghost use Rattle.ts_container.specs.Lower.{lower_page};

/// The lower of two pages, if there is one.
pub(crate) fn lower(first: Option<u32>, second: Option<u32>) -> Option<u32>
    ensures page { result ≡ lower_page first second }
    ensures none { result ≡ None → (first ≡ None) × (second ≡ None) }
    ensures some { IsSome result → IsSome first ⊎ IsSome second }
{
    match (first, second) {
        (Some(first), Some(second)) => Some(first.min(second)),
        (Some(page), None) | (None, Some(page)) => Some(page),
        (None, None) => None,
    }
}
