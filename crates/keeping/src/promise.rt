//! S5.7: what is promised of the running totals, as the contract of a function that does nothing.
ghost use Rattle.keeping.specs.Promise.{RunningLeast};

/// S5.7: the total with the next task is the smaller of m + 1 and the least of all sets with as many tasks.
#[tactic(auto, using(crate::proofs::Counted::running_least))]
pub fn running_totals()
    ensures { RunningLeast }
{}
