//! S7.1: the dispatcher's state, its soundness (S7.2), and the switch to the critical mode (S8.6).
ghost use Rattle.std.specs.Prelude.{◌≡◌};

use entries::state::TaskState;

/// S7.1: `processors` is M and `count` is n; the mode is typical or critical; tasks have the first n of the sixteen
/// entries.
/// By value, with sixteen entries, as the buyer asks. The mode is a flag: an enum of two would be made a truth value
/// again by each definition, by the model and by a word (S13.1). A state that is handed in may be unsound (S7.2), so
/// that n ≤ 16 is no ghost field: it is a clause of what reads the entries.
#[derive(Clone, Copy, Debug, PartialEq, Eq)]
pub struct State {
    pub processors: u8,
    pub count: u8,
    pub critical: bool,
    pub entries: [TaskState; 16],
}

/// S3.1: the answer of a call, beside the state that it returns.
#[derive(Clone, Copy, Debug, PartialEq, Eq)]
pub struct Answered<A> {
    pub state: State,
    pub answer: A,
}

impl State {
    ghost use Rattle.std.specs.Prelude.{true, map, ◌&&◌, ◌≤◌, leb};
    ghost use Rattle.basics.specs.Numbers.{within};
    ghost use Rattle.shares.specs.Totals.{typical_total, critical_total};
    ghost use Rattle.model.specs.Row.{switched_row};
    ghost use Rattle.dispatcher.specs.Holds.{entries_of, model_of, with_model, row_shares};
    ghost use Rattle.dispatcher.specs.Sound.{entries_sound, is_sound};

    /// S2.1, S2.2: whether M and n are in their ranges.
    pub fn is_in_range(&self) -> bool
        ensures { result ≡ (within 1 64 self.now.processors && within 1 16 self.now.count) }
    {
        (1..=64).contains(&self.processors) && (1..=16).contains(&self.count)
    }

    /// S7.2: whether each of the first n entries is sound and their shares fit M processors in either mode.
    #[tactic(auto, using(crate::proofs::Entries::left_sound, crate::proofs::Entries::left_typical, crate::proofs::Entries::left_critical))]
    fn has_sound_entries(&self) -> bool
        requires { self.now.count ≤ 16 }
        ensures { result ≡ (
            entries_sound (entries_of self.now)
            && leb (typical_total (row_shares (model_of self.now).rows)) self.now.processors
            && leb (critical_total (row_shares (model_of self.now).rows)) self.now.processors) }
    {
        // One pass: `all` and two sums would go over the entries three times, and a `Pass` holds what a tick finds too.
        let processors = u32::from(self.processors);
        let mut typical = 0;
        let mut critical = 0;
        for e in self.entries[..usize::from(self.count)].iter() {
            if !e.is_sound() {
                return false;
            }
            typical += u32::from(e.share.in_mode(false));
            critical += u32::from(e.share.in_mode(true));
        }
        typical <= processors && critical <= processors
    }

    /// S7.2: whether the state is sound.
    pub fn is_sound(&self) -> bool
        ensures { result ≡ is_sound self.now }
    {
        self.is_in_range() && self.has_sound_entries()
    }

    /// S8.6: the mode turns critical, and the jobs of low tasks that are not kept are dropped.
    pub fn switch(&mut self)
        requires { self.old.count ≤ 16 }
        ensures { self.new ≡ with_model self.old
            (record { critical = true; rows = map switched_row (model_of self.old).rows }) }
    {
        self.critical = true;
        for e in self.entries[..usize::from(self.count)].iter_mut() {
            e.switch();
        }
    }
}
