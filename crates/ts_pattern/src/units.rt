// How units are made of one another.
ghost use Rattle.ts_pattern.specs.Patterns;
ghost use Rattle.std.specs.Prelude.{◌≡◌, ◌<◌, ◌≤◌, IsTrue};

use ts_base::Unit;

/// The smaller of two units, if one is made of the other.
pub fn smaller_unit(a: Unit, b: Unit) -> Option<Unit>
    ensures { result ≡ Patterns.smaller_unit a b }
{
    if is_made_of(a, b) {
        return Some(b);
    }
    if is_made_of(b, a) { Some(a) } else { None }
}

/// How many of the smaller unit make the larger one.
pub fn factor(larger: Unit, smaller: Unit) -> u32
    requires { IsTrue (Patterns.is_made_of larger smaller) }
    ensures value { result ≡ Patterns.factor larger smaller }
    ensures some { 1 ≤ result }
    ensures few { result ≤ 604_800 }
{
    size(larger) / size(smaller)
}

pub(crate) fn is_made_of(larger: Unit, smaller: Unit) -> bool
    ensures { result ≡ Patterns.is_made_of larger smaller }
{
    is_monthly(larger) == is_monthly(smaller) && size(smaller) <= size(larger)
}

fn is_monthly(unit: Unit) -> bool
    ensures { result ≡ Patterns.is_monthly unit }
{
    match unit {
        Unit::Second | Unit::Minute | Unit::Hour | Unit::Day | Unit::Week => false,
        Unit::Month | Unit::Year => true,
    }
}

// The seconds in a unit up to the week, the months in a month or a year.
fn size(unit: Unit) -> u32
    ensures { result ≡ Patterns.size unit }
{
    match unit {
        Unit::Second | Unit::Month => 1,
        Unit::Minute => 60,
        Unit::Hour => 3_600,
        Unit::Day => 86_400,
        Unit::Week => 604_800,
        Unit::Year => 12,
    }
}
