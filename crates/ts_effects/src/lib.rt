//! The effect of a command on what is in memory: definitions, the directory of places, and what containers are charged.
//! `reserve_for` takes the memory for it, and `apply` applies it and takes none; then the charges are those of the
//! definitions and places that it leaves. Where the places of one series change, its container's charge alone is
//! counted anew (`charge.rt`). Stands on ts_answer for what an effect is, and on ts_container for what is charged. Read
//! `specs/Applied.antt`, then `effect.rt`.
#![tactic(auto)]

mod charge;
mod effect;

pub use effect::{apply, reserve_for};
