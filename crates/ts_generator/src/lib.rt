//! Commands that a seed gives: `generate` opens a volume, makes one command after the other from a count and a seed
//! (`generated.rt`), carries each out, and says what they come to once all are durable (`generator.rt`). The list of
//! commands is a definition (`specs/Generated`); what was said, what a stop at any moment leaves, and each status by
//! its cause is `GenRan` (`specs/Generating`). What the counts mean that are said is a law of ts_answer. Stands on
//! ts_engine for commands, on ts_multi for the numbers that a seed gives, and on ts_opening for the opening. Read
//! `specs/Generated.antt`, `specs/Generating.antt`, then `generator.rt`.
#![tactic(auto)]

mod generated;
mod generator;

pub use generator::generate;
