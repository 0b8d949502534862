//! S5.3 and S5.7: the selection. Totals over the tasks, from the last task on, and then a walk forward over the best
//! shares. Shares, totals and their sums are bytes: two numbers of at most m + 1 come to at most 130. In a row of
//! totals m + 1 stands for none and for any total above m (S5.7), so that a minimum needs no test.
ghost use Rattle.std.specs.Prelude.{◌≡◌, [], ◌≤◌, length, replicate};
ghost use Rattle.shares.specs.Offer.{tabulate};
ghost use Rattle.allocation.specs.means.Selection.{cell_at, least_from, best_share, total_with, totals_of, offers_up_to, last_totals, selection_of, total_at, padded, lowered, Small, OfferWithin};

use crate::offers::Offers;
use shares::share::Share;
use sheet::refusal::Refusal;

/// S5.7: the least critical total at each typical total 0 to 64.
/// A plain row: a struct that holds it with `Small` would be opened at each index, so that `Small` is a clause.
type Totals = [u8; 65];

/// The totals from cell 63 on, and m + 1 in the cells before them, so that a share larger than the typical total leaves
/// none.
#[tactic(auto, using(crate::proofs::Lowering::padded_is))]
fn padded(offers: &Offers, totals: &Totals) -> [u8; 128]
    ensures { result ≡ padded offers.now.processors totals.now }
{
    let m = offers.processors;
    let mut cells = [m + 1; 128];
    cells[63..].copy_from_slice(totals);
    cells
}

/// Lowers the totals at typical totals 1 to 64 to what they come to where a task takes `a` typical processors, with
/// this critical share, and the tasks after it, which have these padded totals, the rest. The 64 sums are four vectors
/// of 16 bytes.
fn lower(totals: &mut Totals, a: u8, critical: u8, rest: &[u8; 128])
    requires some { 1 ≤ a }
    requires few { a ≤ 64 }
    requires critical_small { critical ≤ 65 }
    requires rest_small { Small rest.now }
    requires all_there { length totals.old ≡ 65 }
    ensures { totals.new ≡ lowered a critical (total_at rest.now) totals.old }
{
    let share = usize::from(a);
    // By index: of the values behind `iter_mut` and an adapter nothing is known.
    for t in 1..65 {
        totals[t] = totals[t].min(critical + rest[63 + t - share]);
    }
}

/// The totals of a task with this offer, and of the tasks after it, which have the totals rest.
fn totals_with(offers: &Offers, offer: [u8; 64], rest: &Totals) -> Totals
    requires within { OfferWithin offers.now.processors offer }
    requires small { Small rest.now }
    ensures { result ≡ tabulate (total_with offers.now.processors (cell_at offer) (total_at rest.now)) 0 65 }
{
    let m = offers.processors;
    let after = padded(offers, rest);
    let mut least = [m + 1; 65];
    for a in 1..=m {
        lower(&mut least, a, offer[usize::from(a) - 1], &after);
    }
    least
}

/// The totals of no task.
#[tactic(auto, using(crate::proofs::Lines::totals_none))]
fn no_totals(offers: &Offers) -> Totals
    ensures { result ≡ totals_of offers.now.processors [] }
{
    let mut totals = [offers.processors + 1; 65];
    totals[0] = 0;
    totals
}

/// S5.7: the totals of the last k of n tasks, for each k, in the place of those of no task. They are lent, since a
/// function that gives 17 rows back clears and copies them.
fn last_totals(offers: &Offers, all: &mut [Totals; 17])
    requires { all.old ≡ replicate 17 (totals_of offers.now.processors []) }
    ensures { all.new ≡ last_totals offers.now.processors
        (offers_up_to offers.now.count offers.now.cells) offers.now.count }
{
    let count = usize::from(offers.count);
    for k in 0..count {
        all[k + 1] = totals_with(offers, offers.cells[count - 1 - k], &all[k]);
    }
}

/// S5.3: the first share of a task from 1 to t at which its critical share and the rest's total come to the least. By
/// hand, as `first_least`.
#[tactic(auto, using(crate::proofs::Lines::sum_fits))]
fn best_share(offer: &[u8; 64], rest: &Totals, t: u8) -> u8
    requires some { 1 ≤ t }
    requires few { t ≤ 64 }
    requires offer_small { Small offer.now }
    requires rest_small { Small rest.now }
    ensures { result ≡ best_share (cell_at offer.now) (total_at rest.now) t }
{
    let mut best: u8 = 1;
    let mut least = offer[0] + rest[usize::from(t) - 1];
    for a in 2..=t {
        let next = offer[usize::from(a) - 1] + rest[usize::from(t - a)];
        if next < least {
            best = a;
            least = next;
        }
    }
    best
}

/// S5.3: the first typical total within m at which the critical total is least. `min_by_key` was tried: that it gives
/// the first least proves by the steps of its loop, but over `0..m + 1` a full plan takes 92 instructions more, and over
/// `0..=m` 468 more.
fn first_least(offers: &Offers, totals: &Totals) -> u8
    ensures { result ≡ least_from (total_at totals.now) 0 offers.now.processors }
{
    let mut best: u8 = 0;
    for t in 1..=offers.processors {
        if totals[usize::from(t)] < totals[usize::from(best)] {
            best = t;
        }
    }
    best
}

/// Refusal 8 and the shares of the tasks with these offers.
pub fn select(offers: &Offers) -> Result<[Share; 16], Refusal>
    ensures { result ≡ selection_of offers.now.processors (offers_up_to offers.now.count offers.now.cells) }
{
    let count = usize::from(offers.count);
    let mut all = [no_totals(offers); 17];
    last_totals(offers, &mut all);
    let mut left = first_least(offers, &all[count]);
    if offers.processors < all[count][usize::from(left)] {
        return Err(Refusal::NoFit);
    }
    let mut shares = [Share::default(); 16];
    for i in 0..count {
        let a = best_share(&offers.cells[i], &all[count - 1 - i], left);
        shares[i] = Share {
            typical: a,
            critical: offers.cells[i][usize::from(a) - 1],
        };
        left -= a;
    }
    Ok(shares)
}
