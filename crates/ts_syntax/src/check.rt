// A script, pulled in pieces and checked piece by piece.
ghost use Rattle.std.specs.Prelude.{◌≡◌, ◌≤◌, ◌<◌, ◌+◌, IfOk, false, [], length};
ghost use Rattle.ts_disk.specs.Device.{Pulled};
ghost use Rattle.ts_syntax.specs.Reading.{HasRead};
ghost use Rattle.ts_syntax.specs.Checked.{Checked};
ghost use Rattle.ts_syntax.specs.Statuses.{status_of, status_at_end};

use crate::checker::{CheckFault, Checker};
use crate::output::Output;
use std::alloc::Global;
use ts_disk::{PullFailed, Source};

/// The most bytes of a piece.
const PIECE: usize = 65536;

/// The most bytes of a script, as of one that is run.
const LIMIT: usize = 268_435_456;

// How many bytes are pulled next, where so many were: no piece goes past the limit, but for the one byte that shows
// that the script does.
fn room_after(count: usize) -> usize
    requires { count ≤ 268435456 }
    ensures some { 0 < result }
    ensures piece { result ≤ 65536 }
    ensures limit { count < 268435456 → count + result ≤ 268435456 }
{
    if count == LIMIT {
        return 1;
    }
    let left = LIMIT - count;
    if left < PIECE { left } else { PIECE }
}

// Pulls into the front of a buffer.
fn pull_front<R: Source>(
    source: &mut R,
    buffer: &mut [u8],
    room: usize,
) -> Result<usize, PullFailed>
    requires some { 0 < room }
    requires within { room ≤ length buffer.old }
    ensures pulled { Pulled R.tells buffer.new result (R.input source.old) (R.input source.new) }
    ensures room { IfOk result (λ n. n ≤ room) }
{
    source.pull(&mut buffer[..room])
}

// The status of a fault.
fn status(fault: CheckFault) -> u8
    ensures { result ≡ status_of fault }
{
    match fault {
        CheckFault::Output => 4,
        CheckFault::Memory => 7,
    }
}

// The status at the end of a script.
fn status_at_end(outcome: Result<(), CheckFault>, found: bool) -> u8
    ensures { result ≡ status_at_end outcome found }
{
    match outcome {
        Ok(()) => if found { 1 } else { 0 },
        Err(fault) => status(fault),
    }
}

// Checks the script of a source with a checker at its start.
fn check_source<O: Output, R: Source>(
    checker: &mut Checker,
    output: &mut O,
    source: &mut R,
    buffer: &mut [u8],
) -> u8
    requires start { HasRead [] checker.old }
    requires found { checker.old.found ≡ false }
    requires piece { length buffer.old ≡ 65536 }
    ensures { Checked O.tells R.tells result (O.heard output.old) (O.heard output.new) (R.input source.old)
        (R.input source.new) }
{
    let mut count = 0;
    loop {
        match pull_front(source, buffer, room_after(count)) {
            Err(_) => return 3,
            Ok(0) => {
                let outcome = checker.check_end(output);
                return status_at_end(outcome, checker.found);
            }
            Ok(more) => {
                if count == LIMIT {
                    return 8;
                }
                match checker.check_piece(output, &buffer[..more]) {
                    Ok(()) => count += more,
                    Err(fault) => return status(fault),
                }
            }
        }
    }
}

/// Checks the script of a source of at most 268435456 bytes, and says a line of each statement that is refused.
///
/// The status is 0 where none is and 1 where one is. It is 3 where the source failed, 4 where the output did, 7 where
/// there was no memory, and 8 where the script has more bytes; then some first lines were said, the last perhaps in
/// part.
pub fn check_syntax<O: Output, R: Source>(alloc: Global, output: &mut O, source: &mut R) -> u8
    ensures { Checked O.tells R.tells result (O.heard output.old) (O.heard output.new) (R.input source.old)
        (R.input source.new) }
{
    let Ok(mut checker) = Checker::new(alloc) else {
        return 7;
    };
    let Ok(mut buffer) = vec![in alloc; 0u8; PIECE] else {
        return 7;
    };
    check_source(&mut checker, output, source, &mut buffer)
}

#[cfg(test)]
mod tests {
    use crate::{MemoryOutput, check_syntax};
    use std::test::Fail;
    use ts_disk::MemorySource;

    const SCRIPT: &[u8] = b"GetNelems('k');\n  Get('k');\nClip(k, 1);";

    #[test]
    fn each_refused_statement_is_told(rt: HostRuntime) -> Result<(), Fail> {
        let mut output = MemoryOutput::new(rt.alloc(), 2);
        let mut source = MemorySource::new(SCRIPT.to_vec(rt.alloc())?, 3);
        assert_eq!(rt; check_syntax(rt.alloc(), &mut output, &mut source), 1);
        let mut lines = output.said().split(|byte| *byte == b'\n');
        assert!(rt;
            lines
                .next()
                .is_some_and(|line| line.starts_with(b"2:3: Syntax: `Get` "))
        );
        assert!(rt;
            lines
                .next()
                .is_some_and(|line| line.starts_with(b"3:6: Syntax: `k` "))
        );
        Ok(())
    }

    #[test]
    fn an_output_or_a_source_fails(rt: HostRuntime) -> Result<(), Fail> {
        let mut output = MemoryOutput::new(rt.alloc(), 1);
        let mut source = MemorySource::new(SCRIPT.to_vec(rt.alloc())?, 3);
        assert_eq!(rt; check_syntax(rt.alloc(), &mut output, &mut source), 4);
        let mut source = MemorySource::new(SCRIPT.to_vec(rt.alloc())?, 3);
        source.fail(2)?;
        assert_eq!(rt; check_syntax(rt.alloc(), &mut output, &mut source), 3);
        Ok(())
    }
}
