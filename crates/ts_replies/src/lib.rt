//! What was said, read as replies: how many items of a list were answered in whole, the catalogue after these, and
//! whether what is left is the front of the next reply (`specs/Acknowledged`); what a stop may leave beside it
//! (`specs/Acknowledged`); and what a call says and leaves so (`specs/Said`). How items are answered, which line may
//! stand in the place of a reply, and what an image means is one record (`Protocol`), so the same definitions serve
//! however the language grows. The lemmas on them (`proofs/Hearing`, `proofs/Steps`, `proofs/Apart`) are what proofs of
//! runs cite; there is no code. Stands on ts_disk for what a device is; knows nothing of pages or scripts. Read
//! `specs/Acknowledged.antt` first.
#![tactic(auto)]
