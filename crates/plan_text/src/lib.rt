//! S6: the plan of a sheet as printed lines.
#![tactic(auto)]

pub mod line;
pub mod printed;
pub mod promise;
pub mod text;
