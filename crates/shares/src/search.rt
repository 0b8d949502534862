//! S4.3: the search for a high task's least critical share.
ghost use Rattle.std.specs.Prelude.{◌≡◌, ◌≤◌};
ghost use Rattle.shares.specs.Search.{least_critical, found_of};

use crate::test::Terms;
use sheet::task::Figures;

/// S4.3: the least critical share from a up to m that passes at typical share a.
/// By a `loop` that yields by `break`, as the buyer asks.
pub fn least_critical(f: Figures, m: u8, a: u8) -> Option<u8>
    requires { m ≤ 64 }
    ensures { result ≡ found_of m (least_critical m f a) }
{
    if m < a {
        return None;
    }
    let t = Terms::new(f, a);
    // As a is within m, b meets the end. A test for equality costs an instruction less at each share than one for
    // order.
    let end = m + 1;
    let mut b = a;
    // Both sides of the test at b, by sums: compilers make slow vectors of products.
    let share = u64::from(a);
    let mut need = t.slope * share + t.fixed;
    let mut have = t.supply * share;
    loop {
        if b == end {
            break None;
        }
        if need <= have {
            break Some(b);
        }
        need += t.slope + t.extra;
        have += t.supply;
        b += 1;
    }
}
