//! S3.4, S7.2, S8.8, S10.3: what is promised of every state, as the contracts of functions that do nothing.
ghost use Rattle.dispatcher.specs.Laws.{ReleaseBack, TickBack, ReleaseSound, TickSound, ReleaseModel, TickModel, BoardsShow};

/// S7.2, S10.3: a sound state stays sound, and after a call it holds the model after its step. S3.4: a refused call
/// hands back an equal state.
#[tactic(auto, using(crate::proofs::Laws::release_sound, crate::proofs::Laws::tick_sound, crate::proofs::Laws::release_model, crate::proofs::Laws::tick_model, crate::proofs::Laws::release_back, crate::proofs::Laws::tick_back))]
pub fn calls()
    ensures release_sound { ReleaseSound }
    ensures tick_sound { TickSound }
    ensures release_model { ReleaseModel }
    ensures tick_model { TickModel }
    ensures release_back { ReleaseBack }
    ensures tick_back { TickBack }
{}

/// S8.8: a board shows each running node once, in its task's block, and 255, 255 elsewhere.
#[tactic(auto, using(crate::proofs::Shown::board_shows))]
pub fn boards()
    ensures { BoardsShow }
{}
