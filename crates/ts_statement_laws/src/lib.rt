//! Statements both ways: a text is read as a command exactly where it is the tokens of that command, one line a
//! routine (`specs/Statements`). A law alone, the contract of a function without a body; no crate stands on it but
//! laws and tests. Stands on ts_command and what it stands on; knows nothing of catalogues. Read
//! `specs/Statements.antt`, then `laws.rt`.
#![tactic(auto)]

mod laws;

pub use laws::statements_are_tokens;
