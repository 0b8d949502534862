//! Shares: how many processors a task needs in typical and in critical mode.
#![tactic(auto)]

pub mod deadline;
mod low;
pub mod offer;
pub mod promise;
mod search;
pub mod share;
mod test;
