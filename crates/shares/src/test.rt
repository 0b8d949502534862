//! S4.2: what the pair test of a high task takes from its figures. Figures of 32 bits and shares of 8 bits keep every
//! product and sum below 2^50.
ghost use Rattle.std.specs.Prelude.{◌≡◌};
ghost use Rattle.shares.specs.Test.{excess};

use sheet::task::Figures;

/// S4.2: the parts of the test that the typical share a alone decides. A critical share b passes where
/// supply·b is at least slope·b + fixed + extra·(b − a).
#[derive(Clone, Copy, Debug, PartialEq, Eq)]
pub struct Terms {
    pub supply: u64,
    pub slope: u64,
    pub fixed: u64,
    pub extra: u64,
}

/// S4.2: w, the overload work beyond the nominal, less what the longer span takes of it.
#[tactic(auto, unfolding(crate::specs::Test::excess))]
fn excess(f: Figures) -> u32
    ensures { result ≡ excess f }
{
    let work = f.overload.work.saturating_sub(f.nominal.work);
    let span = f.overload.span.saturating_sub(f.nominal.span);
    work.saturating_sub(span)
}

impl Terms {
    ghost use Rattle.shares.specs.means.Terms.{terms_of, Small};

    /// The terms of these figures at typical share a.
    #[tactic(auto, unfolding(crate::specs::means::Terms::terms_of))]
    pub fn new(f: Figures, a: u8) -> Self
        ensures equal { result ≡ terms_of f a }
        ensures small { Small result }
    {
        let w = u64::from(excess(f));
        let a = u64::from(a);
        let span = u64::from(f.nominal.span);
        Terms {
            supply: u64::from(f.deadline) * a,
            slope: u64::from(f.nominal.work.saturating_sub(f.nominal.span))
                + u64::from(f.overload.span) * a,
            fixed: w * a,
            extra: (span * a).min(w),
        }
    }
}
