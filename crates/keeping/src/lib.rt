//! S5.6, S5.7: the low tasks that are kept in the critical mode. In the shares of a choice they are those without a
//! critical share.
#![tactic(auto)]

ghost use Rattle.std.specs.Prelude.{◌≡◌, ◌+◌, ◌≤◌, length, MatchOption, IfSome};
ghost use Rattle.std.specs.Option.{option_map_or};
ghost use Rattle.basics.specs.Order.{least, capped_at};
ghost use Rattle.shares.specs.Totals.{critical_total};
ghost use Rattle.keeping.specs.Running.{totals_with_one};
ghost use Rattle.keeping.specs.means.Keeping.{kept_line, Next, Keepable};

use shares::share::Share;

pub mod promise;

/// A task to keep, and the critical total once it is kept.
#[derive(Clone, Copy)]
struct NextKept {
    task: usize,
    total: u8,
}

/// The critical total of these shares.
fn critical_total(shares: &[Share]) -> u8
    requires { critical_total shares.now ≤ 64 }
    ensures { result ≡ critical_total shares.now }
{
    shares.iter().map(|share| share.critical).sum()
}

/// Of the tasks without a critical share the first with the least typical share, and the critical total with it, where
/// that is within m.
/// By hand: `min_by_key` was tried where the choice takes its first least total (`allocation`), and takes more
/// instructions; here a `filter` would stand before it.
fn next_kept(shares: &[Share], total: u8, m: u8) -> Option<NextKept>
    requires keepable { Keepable m (length shares.now) shares.now }
    requires is_total { total ≡ critical_total shares.now }
    ensures next { MatchOption result
        (Next m (length shares.now) shares.now (length shares.now) (m + 1))
        (λ k. Next m (length shares.now) shares.now k.task k.total) }
    ensures within { IfSome result (λ k. k.total ≤ m) }
    // S5.7: in a byte m + 1 stands for any total above m.
    ensures held { option_map_or (λ k. k.total) result (m + 1)
        ≡ capped_at (m + 1) (least (totals_with_one (length shares.now) shares.now)) }
{
    let mut next = None;
    // m + 1 is more than any total within m, so that one test is enough. A critical share of 0 is none (S7.4).
    let mut smallest = m + 1;
    for (task, share) in shares.iter().enumerate() {
        let with = total + share.typical;
        if share.critical == 0 && with < smallest {
            next = Some(NextKept { task, total: with });
            smallest = with;
        }
    }
    next
}

/// S5.6: the shares of n tasks, with the kept ones' critical shares: the least shares first, as long as the critical
/// total is within m.
/// Sixteen shares and n, since there is no heap.
pub fn with_kept(shares: [Share; 16], n: u8, m: u8) -> [Share; 16]
    requires { Keepable m n shares }
    ensures { result ≡ kept_line m n shares }
{
    let count = usize::from(n);
    let mut all = shares;
    let mut total = critical_total(&all[..count]);
    while let Some(next) = next_kept(&all[..count], total, m) {
        let task = next.task;
        let typical = all[task].typical;
        all[task] = Share {
            typical,
            critical: typical,
        };
        total = next.total;
    }
    all
}
