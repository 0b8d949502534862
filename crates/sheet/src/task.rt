//! What a sheet says of its tasks, as structs by value.
ghost use Rattle.std.specs.Prelude.{◌≡◌};
ghost use Rattle.sheet.specs.Format.{zero_task};

/// S2.8: what a job may take, in ticks: the work of all its nodes together, and the span along any chain of them.
#[derive(Clone, Copy, Debug, Default, PartialEq, Eq)]
pub struct Budget {
    pub work: u32,
    pub span: u32,
}

/// S2.6: the five figures of a task: D, then CN and LN, then CO and LO.
#[derive(Clone, Copy, Debug, Default, PartialEq, Eq)]
pub struct Figures {
    pub deadline: u32,
    pub nominal: Budget,
    pub overload: Budget,
}

/// S2.6: a task: its figures, for each node the set of its predecessors, its level (`level.rt` says what it means)
/// and the number of its nodes, k. The bytes stand last, so that there is no gap between the fields.
/// 32 masks and k, since there is no heap. The definitions read a task of any k, so that k ≤ 32 is no ghost field: it
/// is a clause of what reads the masks.
#[derive(Clone, Copy, Debug, Default, PartialEq, Eq)]
pub struct Task {
    pub figures: Figures,
    pub predecessors: [u32; 32],
    pub level: u8,
    pub nodes: u8,
}

/// S2: a sheet's processors, M, the number of its tasks, n, and the tasks.
/// Sixteen tasks and n, since there is no heap.
#[derive(Clone, Copy, Debug, Default, PartialEq, Eq)]
pub struct TaskSet {
    pub processors: u8,
    pub count: u8,
    pub tasks: [Task; 16],
}

/// S3.5: a task of zeros, which stands in the place of one that is not there.
#[tactic(auto, using(crate::proofs::Zeros::default_is_zero_task))]
pub fn zero_task() -> Task
    ensures { result ≡ zero_task }
{
    Task::default()
}
