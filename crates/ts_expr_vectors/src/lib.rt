//! Worked aggregate lists: their texts with the places of refusals, what they are bound to, and what they make of rows.
//! There are only tests: they stand apart, since a crate that has tests of its own is proved twice. Stands on ts_expr,
//! ts_row and ts_base. Read `texts.rt`, `bindings.rt`, `folds.rt`, then `tallies.rt`.
#![tactic(auto)]

#[cfg(test)]
mod bindings;
#[cfg(test)]
mod folds;
#[cfg(test)]
mod made;
#[cfg(test)]
mod tallies;
#[cfg(test)]
mod texts;
