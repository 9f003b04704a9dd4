//! What rolling sets have after any puts: the content of a set is what is kept of the accepted puts, whatever other
//! commands come between them, and a command of a set leaves all that isn't of it (`specs/Content`). Each is the
//! contract of a function that only calls other laws. Stands on ts_rolling for keys, plans and what is kept, on
//! ts_answer and ts_answer_laws for what commands answer and write. Read `specs/Content.antt`.
#![tactic(auto)]

mod laws;

pub use laws::{a_set_writes_its_own_series, content_is_what_is_kept};
