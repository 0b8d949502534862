//! S4.4: the offer of a task. Cell a − 1 holds the least critical share at typical share a, and m + 1 where there is
//! none: an offer is a row of 64 bytes by value, as the rules of the project ask. `m ≤ 64` is a clause of each
//! function: a type of its own for m would be opened at each use of m, and reads no plainer. The figures are the task's
//! and m is the set's, so no struct holds both. A low task's offer has one cell at most and a high one's any, so that
//! they share no more than the row of m + 1.
ghost use Rattle.std.specs.Prelude.{◌≡◌, ◌≤◌};
ghost use Rattle.shares.specs.Search.{least_critical};
ghost use Rattle.shares.specs.Offer.{low_critical, tabulate, offer_of};

use crate::low::low_share;
use crate::search::least_critical;
use sheet::level::is_low;
use sheet::task::{Figures, Task};

/// A low task's offer. A share of 0, which no heavy task has, has no cell.
fn low_offer(f: Figures, m: u8) -> [u8; 64]
    requires { m ≤ 64 }
    ensures { result ≡ tabulate (low_critical m f) 1 64 }
{
    let mut offer = [m + 1; 64];
    if let Some(share) = low_share(f, m) {
        if 0 < share {
            offer[usize::from(share) - 1] = 0;
        }
    }
    offer
}

/// A high task's offer. No typical share above m has a critical share within m.
fn high_offer(f: Figures, m: u8) -> [u8; 64]
    requires { m ≤ 64 }
    ensures { result ≡ tabulate (least_critical m f) 1 64 }
{
    let mut offer = [m + 1; 64];
    for a in 1..=m {
        offer[usize::from(a) - 1] = least_critical(f, m, a).unwrap_or(m + 1);
    }
    offer
}

/// S4.4: the offer of a task of either level.
#[tactic(auto, using(crate::proofs::Levels::offer_low, crate::proofs::Levels::offer_high))]
pub fn offer(t: Task, m: u8) -> [u8; 64]
    requires { m ≤ 64 }
    ensures { result ≡ offer_of m t }
{
    if is_low(t.level) {
        low_offer(t.figures, m)
    } else {
        high_offer(t.figures, m)
    }
}
