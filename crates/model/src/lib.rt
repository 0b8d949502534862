//! The model of S10.2: tasks, jobs, calls, one step, runs of calls, and what S10.4 to S10.15 promise of them.
//! Definitions and laws: no call is made here.
#![tactic(auto)]

pub mod promise;
