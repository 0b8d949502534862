//! The choice of shares for a task set.
ghost use Rattle.std.specs.Prelude.{◌≡◌, MatchResult, Ok, Err};
ghost use Rattle.sheet.specs.Refusal.{number_of, task_of, Says};
ghost use Rattle.allocation.specs.Lawful.{LawfulSet};
ghost use Rattle.allocation.specs.Allocation.{choice_of};
ghost use Rattle.allocation.specs.Verdict.{Verdict};

use crate::offers::{first_without_share, offers_of};
use crate::selection::select;
use keeping::with_kept;
use shares::share::Share;
use sheet::refusal::Refusal;
use sheet::task::TaskSet;

/// S5.3 and S5.6: refusal 7 over the tasks in order, then refusal 8, and the shares that the tasks get; zeros after the
/// last task.
/// Sixteen shares, since there is no heap: the set says how many of them count.
pub fn choose(set: &TaskSet) -> Result<[Share; 16], Refusal>
    requires { LawfulSet set.now }
    ensures whole { result ≡ choice_of set.now }
    // S9.7 and S9.8 in plain words: what the answer says of the tasks and of the ways that fit.
    ensures verdict { MatchResult result (λ _. Verdict set.now (Ok tt)) (λ r. Verdict set.now (Err r)) }
    ensures says { Says result (number_of (choice_of set.now)) (task_of (choice_of set.now)) }
{
    let offers = offers_of(set);
    if let Some(i) = first_without_share(&offers) {
        return Err(Refusal::NoShare(i));
    }
    let shares = select(&offers)?;
    Ok(with_kept(shares, set.count, set.processors))
}
