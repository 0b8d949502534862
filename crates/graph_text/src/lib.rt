//! Graphs in the Standard Task Graph format: what a text says (S14.1 to S14.5).
#![tactic(auto)]

pub mod graph;
pub mod text;
