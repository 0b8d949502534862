//! S13.7: what is promised of every replay into a short buffer, as the contract of a function that does nothing.
ghost use Rattle.replays.specs.Written.{ShortLeaves};

/// S13.7: a replay that answers 0 leaves the buffer as it was.
#[tactic(auto, using(crate::proofs::Leaves::short_leaves))]
pub fn short_buffers()
    ensures { ShortLeaves }
{}
