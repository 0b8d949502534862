//! S13: what is promised of every line, as the contract of a function that does nothing.
ghost use Rattle.std.specs.Prelude.{◌≡◌, true, false, List, ℕ};
ghost use Rattle.exports.specs.Words.{is_state, SameSaid};
ghost use Rattle.exports.specs.Calls.{RefusalLeaves, NoStateFirst, StaysState, SomeStates};

/// S13.1, S13.2: lines and states say the same, and both kinds of line stand. S13.5: a line that is no state is
/// answered before anything else is looked at. S13.6: a refused call leaves what stood there. S13.8: a line that is a
/// state stays one.
#[tactic(auto, using(crate::proofs::Codec::same_said, crate::proofs::Refusals::states_stand, crate::proofs::Refusals::no_state_first, crate::proofs::Refusals::refusal_leaves, crate::proofs::Refusals::stays_state))]
pub fn lines()
    ensures said { SameSaid }
    ensures kinds { SomeStates }
    ensures first { (line : List ℕ) → is_state line ≡ false → NoStateFirst line }
    ensures leaves { RefusalLeaves }
    ensures stays { (line : List ℕ) → is_state line ≡ true → StaysState line }
{}
