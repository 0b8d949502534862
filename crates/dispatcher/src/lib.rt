//! The dispatcher: a state by value (S7), and the calls Release, Tick and Board on it (S8).
#![tactic(auto)]

pub mod board;
pub mod promise;
pub mod release;
pub mod state;
pub mod tick;
