//! S8.1: a fresh entry, and one of zeros.
ghost use Rattle.std.specs.Prelude.{◌≡◌};
ghost use Rattle.start.specs.Fresh.{fresh_entry, zero_entry};

use allocation::allocate::Allocation;
use entries::state::{Job, TaskState};
use shares::share::Share;
use sheet::task::Task;

/// S8.1: no job is alive, and no node has ended. A constant, in which `default()` can't be called.
const NO_JOB: Job = Job {
    ended: 0,
    alive: false,
};

/// S7.3: an entry that stands for no task.
/// Written out: with `TaskState::default()` it proves too, but a tick on words takes 2,325 instructions more.
#[tactic(auto, unfolding(crate::specs::Fresh::zero_entry))]
pub fn zero_entry() -> TaskState
    ensures { result ≡ zero_entry }
{
    TaskState {
        level: 0,
        nodes: 0,
        predecessors: [0; 32],
        deadline: 0,
        virtual_deadline: 0,
        share: Share {
            typical: 0,
            critical: 0,
        },
        age: 0,
        job: NO_JOB,
    }
}

/// S8.1: a task's entry with what is fixed for it, as old as D, so that it may be released at once.
/// Field by field: what it copies is of two structs, and of neither all.
#[tactic(auto, unfolding(crate::specs::Fresh::fresh_entry))]
pub fn fresh_entry(t: &Task, a: &Allocation) -> TaskState
    ensures { result ≡ fresh_entry t.now a.now }
{
    // Bound first: of an array behind a `&` in a literal nothing is known.
    let predecessors = t.predecessors;
    TaskState {
        level: t.level,
        nodes: t.nodes,
        predecessors,
        deadline: t.figures.deadline,
        virtual_deadline: a.virtual_deadline,
        share: a.share,
        age: t.figures.deadline,
        job: NO_JOB,
    }
}
