//! S4.4 and S9.7: the offers of a task set, and whether an offer offers anything.
ghost use Rattle.std.specs.Prelude.{◌≡◌, ◌≤◌, length, MatchOption, Ok, Err};
ghost use Rattle.sheet.specs.Refusal.{first_over};
ghost use Rattle.sheet.specs.declared.refusal.Refusal.TheVariants.{NoShare};
ghost use Rattle.allocation.specs.Lawful.{LawfulSet};
ghost use Rattle.allocation.specs.means.Selection.{offers_of, offers_none, offer_answer, OffersWithin};

use shares::offer::offer;
use sheet::task::TaskSet;

/// S4.4: for each task of a set the least critical share at each typical share 1 to 64. An offer is a row of 64 bytes
/// by value, as the rules of the project ask, so that processors + 1 stands for none.
#[derive(Clone, Copy, Debug, PartialEq, Eq)]
pub struct Offers {
    pub processors: u8,
    pub count: u8,
    pub cells: [[u8; 64]; 16],
    ghost few_processors: { processors ≤ 64 },
    ghost few_tasks: { count ≤ 16 },
    ghost all_there: { length cells ≡ 16 },
    ghost within: { OffersWithin processors count cells },
}

/// S4.4: the offers of the tasks of a set.
pub fn offers_of(set: &TaskSet) -> Offers
    requires { LawfulSet set.now }
    ensures processors { result.processors ≡ set.now.processors }
    ensures count { result.count ≡ set.now.count }
    ensures cells { result.cells ≡ offers_of set.now }
{
    let mut cells = [[0; 64]; 16];
    for i in 0..usize::from(set.count) {
        cells[i] = offer(set.tasks[i], set.processors);
    }
    Offers {
        processors: set.processors,
        count: set.count,
        cells,
    }
}

/// S9.7: whether no cell of an offer is within m.
pub fn offers_none(cells: &[u8; 64], m: u8) -> bool
    ensures { result ≡ offers_none m cells.now }
{
    cells.iter().all(|&cell| m < cell)
}

/// S9.7: the first task that may take nothing.
pub fn first_without_share(offers: &Offers) -> Option<u8>
    ensures { MatchOption result
        (first_over (offer_answer offers.now.processors offers.now.cells) 0 offers.now.count ≡ Ok tt)
        (λ i. first_over (offer_answer offers.now.processors offers.now.cells) 0 offers.now.count
        ≡ Err (NoShare i)) }
{
    (0..offers.count).find(|&i| offers_none(&offers.cells[usize::from(i)], offers.processors))
}
