//! S4.5, S4.6: the virtual deadline of a task, and the division behind it.
ghost use Rattle.std.specs.Prelude.{◌≡◌, ◌≤◌};
ghost use Rattle.shares.specs.Test.{division_of};
ghost use Rattle.shares.specs.Deadline.{virtual_deadline_of, remainder_of, Exact};

use sheet::level::is_low;
use sheet::task::{Figures, Task};

/// S4.6: how many whole times a share goes into a figure, and what is left. V is no quotient, so it has a type of its
/// own.
#[derive(Clone, Copy)]
struct Division {
    quotient: u32,
    remainder: u32,
}

/// S4.5, S4.6: V in whole ticks, and the remainder of the division behind it: V was rounded down by remainder / a of a
/// tick.
#[derive(Clone, Copy, Debug, PartialEq, Eq)]
pub struct VirtualDeadline {
    pub ticks: u32,
    pub remainder: u32,
}

/// S4.6: the division behind V: the nominal work beside the span, over a processors.
#[tactic(auto, using(crate::proofs::Division::division_exact), unfolding(crate::specs::Test::division_of))]
fn divide(f: Figures, a: u8) -> Division
    requires { 1 ≤ a }
    ensures whole { result ≡ division_of f a }
    ensures exact { Exact f a result }
{
    let work = f.nominal.work.saturating_sub(f.nominal.span);
    let share = u32::from(a);
    Division {
        quotient: work / share,
        remainder: work % share,
    }
}

/// S4.5, S4.6: V and the remainder of a task of either level with typical share a: both are 0 for a low one.
/// S4.5 has these two cases, so that a test of the level stands here.
#[tactic(auto, using(crate::proofs::Division::quotient_within), unfolding(crate::specs::Deadline::virtual_deadline_of, crate::specs::Deadline::remainder_of, crate::specs::Test::virtual_deadline))]
pub fn virtual_deadline_of(t: Task, a: u8) -> VirtualDeadline
    requires { 1 ≤ a }
    ensures ticks { result.ticks ≡ virtual_deadline_of t a }
    ensures remainder { result.remainder ≡ remainder_of t a }
{
    let f = t.figures;
    if is_low(t.level) {
        return VirtualDeadline {
            ticks: 0,
            remainder: 0,
        };
    }
    let d = divide(f, a);
    VirtualDeadline {
        ticks: f.nominal.span + d.quotient,
        remainder: d.remainder,
    }
}
