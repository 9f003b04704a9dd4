//! Worked statements, with the commands that they are read as, and the places where they are refused. There are only
//! tests: they stand apart, since a crate that has tests of its own is proved twice. Stands on ts_command, which it
//! tests, with ts_row's columns and literals. Read `commands.rt`, then the others in any order.
#![tactic(auto)]

#[cfg(test)]
mod commands;
#[cfg(test)]
mod copies;
#[cfg(test)]
mod definitions;
#[cfg(test)]
mod places;
#[cfg(test)]
mod readings;
#[cfg(test)]
mod rolling;
#[cfg(test)]
mod transactions;
