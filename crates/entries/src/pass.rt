//! A tick's pass over the entries: what it has found so far (S7.2, S9.15, S8.6, S8.9).
ghost use Rattle.std.specs.Prelude.{◌≡◌, ◌&&◌, ◌||◌, ◌+◌, ◌≤◌, leb};
ghost use Rattle.std.specs.Bool.{then_some};
ghost use Rattle.std.specs.Option.{option_or};

use shares::share::Share;

/// What a pass over the first tasks found: the sums of their shares, the first task that reports a node that is not
/// running, the lowest late task, and whether a high job is alive. By default no task is passed.
#[derive(Clone, Copy, Debug, Default, PartialEq, Eq)]
pub struct Pass {
    pub typical: u32,
    pub critical: u32,
    pub wrong: Option<u8>,
    pub late: Option<u8>,
    pub high: bool,
}

impl Pass {
    /// One task more, i. S3.2, S8.7: a task that was found before stays.
    pub fn add(&mut self, i: u8, share: Share, wrong: bool, late: bool, high: bool)
        requires { (self.old.typical ≤ 65535) × (self.old.critical ≤ 65535) }
        ensures typical { self.new.typical ≡ self.old.typical + share.typical }
        ensures critical { self.new.critical ≡ self.old.critical + share.critical }
        ensures wrong { self.new.wrong ≡ option_or self.old.wrong (then_some wrong i) }
        ensures late { self.new.late ≡ option_or self.old.late (then_some late i) }
        ensures high { self.new.high ≡ (self.old.high || high) }
        ensures small { (self.new.typical ≤ self.old.typical + 255)
            × (self.new.critical ≤ self.old.critical + 255) }
    {
        self.typical += u32::from(share.typical);
        self.critical += u32::from(share.critical);
        self.wrong = self.wrong.or(wrong.then_some(i));
        self.late = self.late.or(late.then_some(i));
        self.high |= high;
    }

    /// S7.2: whether the sums are at most M.
    pub fn fits(&self, processors: u8) -> bool
        ensures { result ≡ (leb self.now.typical processors && leb self.now.critical processors) }
    {
        let m = u32::from(processors);
        self.typical <= m && self.critical <= m
    }
}
