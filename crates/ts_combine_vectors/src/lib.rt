//! What a script can't ask of two series and doesn't tell: which elements are needed, how many rows are too many,
//! and a lag by the most starts. There are only tests: they stand apart, since a crate that has tests of its own is
//! proved twice. Stands on ts_combine, which it tests. Read `laid.rt`, then the others in any order. Worked unions,
//! intersections and lags stand in the folder examples/.
#![tactic(auto)]

#[cfg(test)]
mod lags;
#[cfg(test)]
mod laid;
#[cfg(test)]
mod large;
