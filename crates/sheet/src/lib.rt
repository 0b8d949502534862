//! The sheet: the format of its bytes, what they say, and the rules of a record.
#![tactic(auto)]

pub mod level;
pub mod promise;
pub mod refusal;
pub mod rules;
pub mod task;
