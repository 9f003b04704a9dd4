//! Worked windows and expressions: sums and means of the last values, texts with the places of refusals, what columns
//! and lists are bound to, and the values of lists. There are only tests: they stand apart, since a crate that has
//! tests of its own is proved twice. Stands on ts_running, ts_expr, ts_row and ts_base. Read `windows.rt`,
//! `columns.rt`, `texts.rt`, `bindings.rt`, then `values.rt`.
#![tactic(auto)]

#[cfg(test)]
mod bindings;
#[cfg(test)]
mod columns;
#[cfg(test)]
mod made;
#[cfg(test)]
mod texts;
#[cfg(test)]
mod values;
#[cfg(test)]
mod windows;
