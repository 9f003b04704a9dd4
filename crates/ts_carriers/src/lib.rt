//! Runs of items, whatever carries them out: what is said of them, and what a stop within them leaves. A carrier goes
//! from one state of a protocol to the next (`specs/Run`); that each item's reply is said once the item is carried out,
//! and before the next is begun, gives a run that is fair and good at each moment (`proofs/SayingLemmas`), also where
//! the reply is said in pieces (`proofs/ReplyLemmas`), and so does one run behind another (`proofs/RanLemmas`). Stands
//! on ts_replies for what replies are heard as, and on ts_disk and ts_journal for what a device is; knows no engine, no
//! command and no catalogue. Read `specs/Run.antt`.
#![tactic(auto)]

mod fault;

pub use fault::RunFault;
