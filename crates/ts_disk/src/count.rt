// How often calls failed, as every device counts it.
ghost use Rattle.std.specs.Prelude.{◌≤◌};
ghost use Rattle.ts_disk.specs.Device.{Rose};

/// One failure more, as far as the count goes.
pub fn raise(count: &mut u64)
    ensures rose { Rose count.old count.new }
    ensures no_less { count.old ≤ count.new }
{
    *count = count.saturating_add(1);
}
