//! S2.14: what is promised of a sheet and its wide form, as the contract of a function that does nothing.
ghost use Rattle.start.specs.Wide.{WideStarted};

/// S2.14: a sheet that is accepted and its wide form start alike, but for the levels.
#[tactic(auto, using(crate::proofs::Wide::wide_started))]
pub fn wide_forms()
    ensures { WideStarted }
{}
