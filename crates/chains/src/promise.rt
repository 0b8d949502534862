//! S14.8: what holds of every work and span, as the contract of a function that does nothing.
ghost use Rattle.chains.specs.Laws.{SpanIsGreatest, OwnBudget, SpanWithinWork, Growth};

/// S14.8: a span is the greatest sum along a chain and at most the work, times keep the budget that they come to, and
/// where no time falls, the span grows no more than the work.
#[tactic(auto, using(crate::proofs::Laws::span_is_greatest, crate::proofs::Laws::own_budget, crate::proofs::Laws::span_within_work, crate::proofs::Laws::growth))]
pub fn budgets()
    ensures greatest { SpanIsGreatest }
    ensures kept { OwnBudget }
    ensures within { SpanWithinWork }
    ensures growth { Growth }
{}
