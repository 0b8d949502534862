//! What is promised of runs (S10), and Replay (S12), which runs a logged list of calls. It is no part of the image.
#![tactic(auto)]

mod encoding;
pub mod promise;
mod record;
pub mod replay;
mod turn;
