//! The laws of catalogues and of statements, called. There are only tests: they stand apart, since a crate that has
//! tests of its own is proved twice. Stands on ts_catalogue_laws and ts_statement_laws, which it tests.
#![tactic(auto)]

#[cfg(test)]
mod laws;
