//! S4.1: the one share that a low task may have.
ghost use Rattle.std.specs.Prelude.{◌≡◌};
ghost use Rattle.shares.specs.Low.{low_answer};

use sheet::task::Figures;

/// S4.1: the share of a low task, or none where its deadline leaves no room or the share is above m.
#[tactic(auto, using(crate::proofs::Rounding::div_ceil_is), unfolding(crate::specs::Low::low_answer, crate::specs::Low::has_low_share, crate::specs::Low::low_share))]
pub fn low_share(f: Figures, m: u8) -> Option<u8>
    ensures { result ≡ low_answer m f }
{
    let span = f.nominal.span;
    if f.deadline <= span {
        return None;
    }
    let share = f
        .nominal
        .work
        .saturating_sub(span)
        .div_ceil(f.deadline - span);
    // A cast that the test guards: `then_some` casts before the test, and by `u8::try_from` and `filter` each low task
    // costs six instructions more.
    if share <= u32::from(m) {
        Some(share as u8)
    } else {
        None
    }
}
