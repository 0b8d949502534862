//! What a controller's C or Rust code links: the calls on lines of words, buffers and numbers (S13). Beside them
//! what the tests and the benchmarks call.
#![tactic(auto)]

mod decoding;
pub mod dispatching;
mod encoding;
mod fields;
pub mod planning;
pub mod promise;
pub mod reading;
pub mod repeating;
mod words;
