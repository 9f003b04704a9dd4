//! Lines of replies, worked out by hand, and the laws of answers, called; the marks of hidden elements. There are only
//! tests: they stand apart, since a crate that has tests of its own is proved twice. Stands on ts_say, ts_answer,
//! ts_answer_laws and ts_hidden, which it tests. Read `lines.rt`, then the others in any order.
#![tactic(auto)]

#[cfg(test)]
mod answers;
#[cfg(test)]
mod folds;
#[cfg(test)]
mod lines;
#[cfg(test)]
mod marks;
#[cfg(test)]
mod rows;
