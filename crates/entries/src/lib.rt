//! One task's entry of a state (S7.1): its soundness, its running nodes, and what each call makes of it.
#![tactic(auto)]

pub mod pass;
pub mod state;
