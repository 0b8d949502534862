//! S10.14: what is promised of the tick count, as the contract of a function that does nothing. The promises over
//! lists of calls stand in `guarantee::promise`.
ghost use Rattle.model.specs.Isolation.{TicksCounted};

/// S10.14: the calls up to a tick, the calls at a tick count and the report that ends it are what their names say.
#[tactic(auto, using(crate::proofs::TickCounts::ticks_counted))]
pub fn tick_count()
    ensures { TicksCounted }
{}
