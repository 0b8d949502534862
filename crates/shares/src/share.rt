//! S1: how many processors a task gets in either mode.
ghost use Rattle.std.specs.Prelude.{◌≡◌};

/// S1: how many processors a task gets in the typical and in the critical mode: a and b of its pair. Plain bytes: the
/// critical share of a low task that is not kept is 0 (S7.4), and a task that is not there has none, so that 1 ≤ a is a
/// clause.
#[derive(Clone, Copy, Debug, Default, PartialEq, Eq)]
pub struct Share {
    pub typical: u8,
    pub critical: u8,
}

impl Share {
    ghost use Rattle.shares.specs.Totals.{share_in};

    /// S8.3: the share that the mode allows. S8.3 has the two modes, so that a test of the mode stands here.
    pub fn in_mode(self, critical: bool) -> u8
        ensures { result ≡ share_in critical self }
    {
        if critical {
            self.critical
        } else {
            self.typical
        }
    }
}
