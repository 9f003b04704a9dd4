// What ends a run.

/// The disk or the output failed.
#[derive(Clone, Copy, Debug, PartialEq, Eq)]
pub enum RunFault {
    Disk,
    Output,
}
