//! The real outside: a file with standard output as a site, and standard input as a source. Of their content nothing
//! is told, so each clause of the traits that speaks of bytes says nothing here; what is promised is the length, and
//! that each `Err` raised its count (`specs/FileSite`), and no `Ok` did. A read of nothing inside the file and a write
//! that takes nothing are failures. A call fails once its count stands at its last value (`full`). Once a sync failed,
//! every later call of the volume fails (`closed`, `lost`), since a kernel may drop what was written and answer Ok to
//! the next sync. A call that would take the file past the system's limit on file sizes fails (`beyond`), since the
//! system would end the program. Standard input and output that don't block are waited for (`wait.rt`). Stands on
//! ts_disk alone.
#![tactic(auto)]

mod file_site;
mod std_source;
mod wait;

pub use file_site::FileSite;
pub use std_source::StdSource;
pub use wait::write_out;
