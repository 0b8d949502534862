//! What stands below all other crates: numbers in bytes; and, in specs and proofs, lists and tests.
#![tactic(auto)]

pub mod numbers;
