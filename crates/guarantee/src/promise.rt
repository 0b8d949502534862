//! S10, S12.4: what is promised of runs and of replays, as the contracts of functions that do nothing.
ghost use Rattle.guarantee.specs.Guarantee.{Guarantee, BesideGuarantee};
ghost use Rattle.guarantee.specs.Isolation.{IsolationGuarantee, UnswitchedGuarantee, CommissioningGuarantee};
ghost use Rattle.guarantee.specs.Replay.{RecordOfCall, ReplayGuarantee};
ghost use Rattle.guarantee.specs.Witness.{DeadlineMet, NominalMet, LowMet, KeptMet, BackMet};
ghost use Rattle.guarantee.specs.IsolationWitness.{IsolationMet, CommissioningMet, ModesMatter};

/// S10.1 to S10.13: what holds of every run of every sheet that Start accepts.
#[tactic(auto, using(crate::proofs::Theorem::guarantee))]
pub fn guarantee()
    ensures { Guarantee }
{}

/// S10.10: what holds of the same runs beside it.
#[tactic(auto, using(crate::proofs::Theorem::beside_guarantee))]
pub fn beside()
    ensures { BesideGuarantee }
{}

/// S10.14: a task is alike in two runs that have the same of it.
#[tactic(auto, using(crate::proofs::Isolation::isolation))]
pub fn isolation()
    ensures { IsolationGuarantee }
{}

/// S10.15: where no tick switches, the same typical share is enough.
#[tactic(auto, using(crate::proofs::Isolation::isolation_unswitched))]
pub fn unswitched()
    ensures { UnswitchedGuarantee }
{}

/// S10.15: a task alone on a sheet of its own, and in a full sheet.
#[tactic(auto, using(crate::proofs::Isolation::commissioning))]
pub fn commissioning()
    ensures { CommissioningGuarantee }
{}

/// S12.4: what a replay shows.
#[tactic(auto, using(crate::proofs::ReplayModel::replay_guarantee, crate::proofs::ReplayModel::record_of_call))]
pub fn replays()
    ensures shown { ReplayGuarantee }
    ensures ordered { RecordOfCall }
{}

/// What S10.7 to S10.13 ask can be met: there are runs that meet it.
#[tactic(auto, using(crate::proofs::Witness::deadline_met, crate::proofs::Witness::nominal_met, crate::proofs::Witness::low_met, crate::proofs::Witness::kept_met, crate::proofs::Witness::back_met))]
pub fn can_be_met()
    ensures deadline { DeadlineMet }
    ensures nominal { NominalMet }
    ensures low { LowMet }
    ensures kept { KeptMet }
    ensures back { BackMet }
{}

/// So can what S10.14 and S10.15 ask, and none of it without the modes.
#[tactic(auto, using(crate::proofs::IsolationWitness::isolation_met, crate::proofs::IsolationWitness::commissioning_met, crate::proofs::IsolationWitness::modes_matter))]
pub fn can_be_isolated()
    ensures isolated { IsolationMet }
    ensures commissioned { CommissioningMet }
    ensures modes { ModesMatter }
{}
