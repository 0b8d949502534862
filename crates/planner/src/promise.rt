//! S2.14: what is promised of a sheet and its wide form, as the contract of a function that does nothing.
ghost use Rattle.planner.specs.Wide.{WidePlanned};

/// S2.14: a sheet that is accepted and its wide form get the same plan.
#[tactic(auto, using(crate::proofs::Wide::wide_planned))]
pub fn wide_forms()
    ensures { WidePlanned }
{}
