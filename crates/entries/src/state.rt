//! S7.1: the entry of one task, what it says (S7.2, S8.2, S8.3), and what each call makes of it (S8.4 to S8.6).
ghost use Rattle.std.specs.Prelude.{◌≡◌, ◌≤◌, ◌<◌, []};
ghost use Rattle.basics.specs.Lists.{kept_if};
ghost use Rattle.nodes.specs.Sets.{set_of};
ghost use Rattle.model.specs.Row.{is_subset, all_ended};

use nodes::NodeSet;
use shares::share::Share;
use sheet::level::{figure_limit, is_high, is_lawful};
use sheet::refusal::Refusal;
use sheet::rules::masks_lawful;

/// S7.1: what one release begins: the job's ended set, and whether it is alive.
#[derive(Clone, Copy, Debug, PartialEq, Eq)]
pub struct Job {
    pub ended: u32,
    pub alive: bool,
}

/// S7.1: what the sheet and the plan fix, and below `share` what calls change. `nodes` is k, `predecessors` are the
/// masks, and `virtual_deadline` is V: the age at which an alive job of a high task turns the mode critical.
/// The masks are 32, since there is no heap, and the level is a byte (`sheet::level` says why). An entry that is
/// handed in may hold any k (S7.2), so that k ≤ 32 is no ghost field: it is a clause of what reads the masks.
#[derive(Clone, Copy, Debug, PartialEq, Eq)]
pub struct TaskState {
    pub level: u8,
    pub nodes: u8,
    pub predecessors: [u32; 32],
    pub deadline: u32,
    pub virtual_deadline: u32,
    pub share: Share,
    pub age: u32,
    pub job: Job,
}

/// S8.5: whether all k nodes have ended.
#[tactic(auto, using(crate::proofs::NodeSets::full_ended))]
pub fn all_ended(nodes: u8, ended: u32) -> bool
    requires { nodes ≤ 32 }
    ensures { result ≡ all_ended nodes ended }
{
    NodeSet::full(u32::from(nodes)).is_subset(NodeSet::from_bits(ended))
}

/// S8.2: whether all predecessors of a node have ended.
#[tactic(auto, using(crate::proofs::NodeSets::within_subset))]
fn is_unblocked(predecessors: u32, ended: u32) -> bool
    ensures { result ≡ is_subset predecessors ended }
{
    NodeSet::from_bits(predecessors).is_subset(NodeSet::from_bits(ended))
}

/// The set of node v, or no node.
/// A shift of its own: `nodes::bit` is never empty, and graph_text's `bit_named` counts from 1 on, with 0 for none.
fn node_if(kept: bool, v: u32) -> u32
    requires { v < 32 }
    ensures { result ≡ set_of (kept_if kept v []) }
{
    if kept { 1 << v } else { 0 }
}

impl TaskState {
    ghost use Rattle.std.specs.Prelude.{not, ◌&&◌, ◌||◌, ltb, ◌^◌};
    ghost use Rattle.sheet.specs.declared.refusal.Refusal.TheVariants.{LowInCritical, TooEarly};
    ghost use Rattle.sheet.specs.Refusal.{refused_if, ◌or_else◌};
    ghost use Rattle.shares.specs.Totals.{share_in};
    ghost use Rattle.model.specs.Row.{ready, running_set, has_high_job, is_late, survives};
    ghost use Rattle.model.specs.Row.{released_row, ticked_row, switched_row};
    ghost use Rattle.entries.specs.Entry.{fixed_of, row_of, with_row};
    ghost use Rattle.entries.specs.Sound.{entry_sound};

    /// S7.2, of one entry. k is tested before the masks and the ended set are read by it.
    #[tactic(auto, unfolding(crate::specs::Sound::entry_sound))]
    pub fn is_sound(&self) -> bool
        ensures { result ≡ entry_sound self.now }
    {
        is_lawful(self.level)
            && (1..=32).contains(&self.nodes)
            && masks_lawful(&self.predecessors, self.nodes)
            && (1..=figure_limit(self.level)).contains(&self.deadline)
            && self.virtual_deadline <= self.deadline
            && self.age <= self.deadline
            && self.names_own_nodes()
            && self.has_node_left()
    }

    /// S7.2: whether no node from k on has ended.
    #[tactic(auto, using(crate::proofs::Soundness::below_full))]
    fn names_own_nodes(&self) -> bool
        requires { self.now.nodes ≤ 32 }
        ensures { result ≡ ltb self.now.job.ended (2 ^ self.now.nodes) }
    {
        self.job.ended <= NodeSet::full(u32::from(self.nodes)).bits()
    }

    /// S7.2: whether a job that is alive has a node left.
    fn has_node_left(&self) -> bool
        requires { self.now.nodes ≤ 32 }
        ensures { result ≡ not (self.now.job.alive && all_ended self.now.nodes self.now.job.ended) }
    {
        !(self.job.alive && all_ended(self.nodes, self.job.ended))
    }

    /// S8.2: the ready nodes, as a set: none without an alive job, else those that wait for no node, less the ended
    /// ones.
    pub fn ready(&self) -> NodeSet
        requires { self.now.nodes ≤ 32 }
        ensures { result ≡ set_of (ready (row_of self.now)) }
    {
        if !self.job.alive {
            return NodeSet::from_bits(0);
        }
        let ended = self.job.ended;
        let masks = &self.predecessors[..usize::from(self.nodes)];
        let mut set = 0;
        for (v, &mask) in masks.iter().enumerate() {
            // Below 32, and `usize` has no `From` to `u32`.
            set += node_if(is_unblocked(mask, ended), v as u32);
        }
        NodeSet::from_bits(set - (set & ended))
    }

    /// S8.3: of the ready nodes those that run, as many as the share in the mode allows.
    #[tactic(auto, using(crate::proofs::NodeSets::lowest_ready))]
    pub fn running(&self, critical: bool) -> NodeSet
        requires { self.now.nodes ≤ 32 }
        ensures { result ≡ running_set (share_in critical self.now.share) (row_of self.now) }
    {
        self.ready().lowest(u32::from(self.share.in_mode(critical)))
    }

    /// S8.6: whether a switch leaves the task's job: that of a high task, and that of a low one that is kept. A low task
    /// that is not kept has the critical share 0 (S7.4).
    #[tactic(auto, unfolding(model::specs::Row::survives, crate::specs::Entry::fixed_of, shares::specs::Low::is_kept, sheet::specs::Level::is_low))]
    pub fn survives(&self) -> bool
        ensures { result ≡ survives (fixed_of self.now) }
    {
        is_high(self.level) || 0 < self.share.critical
    }

    /// S8.6, S8.9: whether this is a high task with an alive job.
    #[tactic(auto, unfolding(model::specs::Row::has_high_job, crate::specs::Entry::row_of, crate::specs::Entry::fixed_of, crate::specs::Entry::job_of))]
    pub fn has_high_job(&self) -> bool
        ensures { result ≡ has_high_job (row_of self.now) }
    {
        is_high(self.level) && self.job.alive
    }

    /// S8.6: whether an alive job of a high task is as old as V, or older.
    #[tactic(auto, unfolding(model::specs::Row::is_late, crate::specs::Entry::row_of, crate::specs::Entry::fixed_of))]
    pub fn is_late(&self) -> bool
        ensures { result ≡ is_late (row_of self.now) }
    {
        self.has_high_job() && self.virtual_deadline <= self.age
    }

    /// S9.12, S9.13: whether the task may be released: in the critical mode no low task that is not kept, and none too
    /// early.
    /// The mode is a flag, as in a state.
    pub fn release_answer(&self, critical: bool, task: u8) -> Result<(), Refusal>
        ensures { result ≡ (
            refused_if (critical && not (survives (fixed_of self.now))) (LowInCritical task)
            or_else refused_if (self.now.job.alive || ltb self.now.age self.now.deadline) (TooEarly task)) }
    {
        if critical && !self.survives() {
            return Err(Refusal::LowInCritical(task));
        }
        if self.job.alive || self.age < self.deadline {
            return Err(Refusal::TooEarly(task));
        }
        Ok(())
    }

    /// S8.4: a job begins.
    #[tactic(auto, unfolding(crate::specs::Entry::with_row, model::specs::Row::released_row))]
    pub fn release(&mut self)
        ensures { self.new ≡ with_row self.old (released_row (row_of self.old)) }
    {
        self.age = 0;
        self.job = Job {
            ended: 0,
            alive: true,
        };
    }

    /// S8.5: the entry's part of a tick: the reported nodes have ended, and the age grows, up to D.
    #[tactic(auto, unfolding(crate::specs::Entry::with_row, model::specs::Row::ticked_row, model::specs::Row::joined, crate::specs::Entry::row_of, crate::specs::Entry::fixed_of, crate::specs::Entry::job_of))]
    pub fn tick(&mut self, report: u32)
        requires { self.old.nodes ≤ 32 }
        ensures { self.new ≡ with_row self.old (ticked_row (row_of self.old) report) }
    {
        let ended = self.job.ended | report;
        self.age = self.age.saturating_add(1).min(self.deadline);
        self.job = Job {
            ended,
            alive: self.job.alive && !all_ended(self.nodes, ended),
        };
    }

    /// S8.6: the mode turned critical: a job that does not survive is dropped.
    #[tactic(auto, unfolding(crate::specs::Entry::with_row, model::specs::Row::switched_row, crate::specs::Entry::row_of, crate::specs::Entry::job_of))]
    pub fn switch(&mut self)
        ensures { self.new ≡ with_row self.old (switched_row (row_of self.old)) }
    {
        self.job.alive = self.job.alive && self.survives();
    }
}
