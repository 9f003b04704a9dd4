// Standard input.
ghost use Rattle.std.specs.Prelude.{◌≡◌, ◌<◌, length, false, IsErr};
ghost use Rattle.ts_disk.specs.Device.{Pulled};

use crate::wait::read_some;
use ts_disk::{PullFailed, Source, either, raise};

/// Standard input. It tells no bytes.
#[derive(Drop)]
pub struct StdSource {
    rt: HostRuntime,
    pulls: u64,
    pull_faults: u64,
    /// A pull answered 0.
    ended: bool,
    /// A pull was made behind that.
    past_end: bool,
}

impl StdSource {
    ghost use Rattle.ts_file.specs.StdSource.{std_input};

    pub fn new(rt: &HostRuntime) -> StdSource
        ensures pulls { (std_input result).pulls ≡ 0 }
        ensures faults { (std_input result).pull_faults ≡ 0 }
        ensures ended { (std_input result).ended ≡ false }
        ensures past_end { (std_input result).past_end ≡ false }
    {
        StdSource {
            rt: *rt,
            pulls: 0,
            pull_faults: 0,
            ended: false,
            past_end: false,
        }
    }
}

impl Source for StdSource {
    ghost use Rattle.ts_file.specs.StdSource.{std_input};

    ghost tells = { false };

    ghost input = { std_input };

    fn pull(&mut self, into: &mut [u8]) -> Result<usize, PullFailed>
        requires { 0 < length into.old }
        ensures pulled { Pulled false into.new result (std_input self.old) (std_input self.new) }
        ensures full { (std_input self.old).pull_faults ≡ u64.MAX → IsErr result }
    {
        self.pulls = self.pulls.saturating_add(1);
        self.past_end = either(self.past_end, self.ended);
        if self.pull_faults == u64::MAX {
            return Err(PullFailed);
        }
        match read_some(&self.rt, into) {
            Ok(count) => {
                self.ended = either(self.ended, count == 0);
                Ok(count)
            }
            Err(_) => {
                raise(&mut self.pull_faults);
                Err(PullFailed)
            }
        }
    }
}
