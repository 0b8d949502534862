//! Import: a graph in the Standard Task Graph format becomes the record of a task (S14). No part of the image.
#![tactic(auto)]

pub mod import;
pub mod promise;
mod record;
mod task;
pub mod terms;
