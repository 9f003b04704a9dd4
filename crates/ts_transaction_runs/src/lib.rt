//! Whole runs with transactions: what a stop or a failure within one leaves. There are only tests: they stand apart,
//! since a crate that has tests of its own is proved twice. Stands on ts_programs, and on ts_disk's volume in memory.
//! Read `transactions.rt`, then `within_transactions.rt`. What is said in transactions stands in
//! `.ci/examples.d/transactions.sh`.
#![tactic(auto)]

#[cfg(test)]
mod transactions;
#[cfg(test)]
mod within_transactions;
