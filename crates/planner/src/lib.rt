//! The planner: the plan of a sheet.
#![tactic(auto)]

pub mod plan;
pub mod promise;
