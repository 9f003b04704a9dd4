// What every source remembers of its end.
ghost use Rattle.std.specs.Prelude.{◌≡◌, ◌||◌};

/// Whether one of two things was so.
pub fn either(first: bool, second: bool) -> bool
    ensures { result ≡ (first || second) }
{
    first || second
}
