//! The allocation: which shares the tasks of a set get, and what is fixed for each of them.
#![tactic(auto)]

pub mod allocate;
pub mod choice;
mod offers;
pub mod promise;
mod selection;
