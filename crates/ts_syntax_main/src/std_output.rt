// Standard output, as ts_file writes to it: one that doesn't block is waited for.
ghost use Rattle.std.specs.Prelude.{◌≡◌, false};

use ts_disk::{SayFailed, raise};
use ts_file::write_out;
use ts_syntax::Output;

/// Standard output. It tells no bytes.
#[derive(Drop)]
pub(crate) struct StdOutput {
    rt: HostRuntime,
    faults: u64,
}

impl StdOutput {
    pub(crate) fn new(rt: &HostRuntime) -> StdOutput {
        StdOutput { rt: *rt, faults: 0 }
    }
}

impl Output for StdOutput {
    ghost use Rattle.ts_syntax_main.specs.StdOutput.{std_heard};

    ghost tells = { false };

    ghost heard = { std_heard };

    fn say(&mut self, piece: &[u8]) -> Result<(), SayFailed> {
        if self.faults == u64::MAX || write_out(&self.rt, piece).is_err() {
            raise(&mut self.faults);
            return Err(SayFailed);
        }
        Ok(())
    }
}
