//! Lemmas on options and lists that the other crates' proofs share, named by subject; see `proofs/`.
//!
//! The crate has no function: what it says stands in its lemmas, which the checker proves.
#![tactic(auto)]
