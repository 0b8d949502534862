//! S2.7 to S2.13: the rules of a record, each a test on what the record says.
ghost use Rattle.std.specs.Prelude.{◌≡◌, ◌≤◌};
ghost use Rattle.sheet.specs.Rules.{shape_lawful, in_range, in_order, low_lawful, figures_lawful};
ghost use Rattle.sheet.specs.Rules.{masks_lawful, is_heavy, task_answer};

use crate::level::{bytes_before_masks, figure_limit, is_high, is_lawful};
use crate::refusal::Refusal;
use crate::task::{Figures, Task};

/// S2.7: level, number of nodes and length.
#[tactic(auto, unfolding(crate::specs::Rules::shape_lawful))]
pub fn shape_lawful(level: u8, nodes: u8, bytes: u32) -> bool
    ensures { result ≡ shape_lawful level nodes bytes }
{
    is_lawful(level)
        && (1..=32).contains(&nodes)
        && bytes == bytes_before_masks(level) + 4 * u32::from(nodes)
}

/// S2.12: what is left of node v's mask past its lowest v bits is 0.
/// The masks are a task's or an entry's: 32 and k, as these have them.
pub fn masks_lawful(masks: &[u32; 32], nodes: u8) -> bool
    requires { nodes ≤ 32 }
    ensures { result ≡ masks_lawful masks.now nodes }
{
    let masks = &masks[..usize::from(nodes)];
    masks.iter().enumerate().all(|(v, mask)| mask >> v == 0)
}

/// The level goes beside the figures, a byte (`level.rt` says why): a whole `Task` in their place would ask every caller
/// for masks too, which no rule of figures reads.
impl Figures {
    /// S2.9: whether each figure is in the range of the level.
    #[tactic(auto, unfolding(crate::specs::Rules::in_range))]
    pub fn are_in_range(self, level: u8) -> bool
        ensures { result ≡ in_range level self }
    {
        let range = 1..=figure_limit(level);
        range.contains(&self.deadline)
            && range.contains(&self.nominal.work)
            && range.contains(&self.overload.work)
            && range.contains(&self.nominal.span)
            && range.contains(&self.overload.span)
    }

    /// S2.10: the figures against each other. The last rule is put as differences, which do not wrap.
    #[tactic(auto, unfolding(crate::specs::Rules::in_order))]
    fn are_in_order(self) -> bool
        ensures { result ≡ in_order self }
    {
        self.nominal.span <= self.nominal.work
            && self.overload.span <= self.overload.work
            && self.nominal.work <= self.overload.work
            && self.nominal.span <= self.overload.span
            && self.overload.span - self.nominal.span <= self.overload.work - self.nominal.work
    }

    /// S2.11: whether the level is high, or the nominal figures are the overload figures.
    #[tactic(auto, unfolding(crate::specs::Rules::low_lawful))]
    fn are_lawful_if_low(self, level: u8) -> bool
        ensures { result ≡ low_lawful level self }
    {
        is_high(level) || self.nominal == self.overload
    }

    /// S9.4: the rules for the figures of a level together.
    #[tactic(auto, unfolding(crate::specs::Rules::figures_lawful))]
    pub fn are_lawful(self, level: u8) -> bool
        ensures { result ≡ figures_lawful level self }
    {
        self.are_in_range(level) && self.are_in_order() && self.are_lawful_if_low(level)
    }

    /// S2.13: whether a task of these figures is heavy.
    #[tactic(auto, unfolding(crate::specs::Rules::is_heavy))]
    pub fn are_heavy(self) -> bool
        ensures { result ≡ is_heavy self }
    {
        self.deadline < self.overload.work
    }
}

impl Task {
    /// S3.3: refusals 4, 5 and 6 in this order, of a task with the number i.
    #[tactic(auto, unfolding(crate::specs::Rules::task_answer))]
    pub fn answer(&self, i: u8) -> Result<(), Refusal>
        requires { self.now.nodes ≤ 32 }
        ensures { result ≡ task_answer self.now i }
    {
        if !self.figures.are_lawful(self.level) {
            return Err(Refusal::BadFigure(i));
        }
        if !masks_lawful(&self.predecessors, self.nodes) {
            return Err(Refusal::BadMask(i));
        }
        if !self.figures.are_heavy() {
            return Err(Refusal::NotHeavy(i));
        }
        Ok(())
    }
}
