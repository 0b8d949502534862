//! S4.2, S11.1 to S11.10: what is promised of the pair test, as the contracts of functions that do nothing.
ghost use Rattle.shares.specs.Bound.{DemandBound, SidesBound};
ghost use Rattle.shares.specs.Cases.{Cases};

/// S4.2: how large the two sides of the test get.
#[tactic(auto, using(crate::proofs::Bounds::demand_bound, crate::proofs::Bounds::sides_bound))]
pub fn sides()
    ensures demand { DemandBound }
    ensures both { SidesBound }
{}

/// S11.1 to S11.10: the worked cases of single tasks.
#[tactic(auto, using(crate::proofs::Cases::cases))]
pub fn worked_cases()
    ensures { Cases }
{}
