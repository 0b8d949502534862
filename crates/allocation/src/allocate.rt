//! What the planner fixes for each task of a sheet.
ghost use Rattle.std.specs.Prelude.{◌≡◌};
ghost use Rattle.sheet.specs.Refusal.{number_of, task_of, Says};
ghost use Rattle.allocation.specs.Allocation.{allocations_of, allocated_of};
ghost use Rattle.allocation.specs.means.Bounds.{SharesFit};

use crate::choice::choose;
use reader::read;
use shares::deadline::virtual_deadline_of;
use shares::share::Share;
use sheet::refusal::Refusal;
use sheet::task::TaskSet;

/// S5.4: where a task's block begins in the typical and in the critical mode. A place, no number of processors: a type
/// of its own, so that neither stands for the other.
#[derive(Clone, Copy, Debug, Default, PartialEq, Eq)]
pub struct Offset {
    pub typical: u8,
    pub critical: u8,
}

/// What is fixed for one task: its share (S5.3), where its blocks begin (S5.4), V (S4.5) and the remainder (S4.6).
#[derive(Clone, Copy, Debug, Default, PartialEq, Eq)]
pub struct Allocation {
    pub share: Share,
    pub offset: Offset,
    pub virtual_deadline: u32,
    pub remainder: u32,
}

/// The number of a sheet's tasks, and what is fixed for them; zeros after the last task. Sixteen places and a count,
/// since there is no heap. That the bytes fit a plan is no ghost field: the definition `allocated_of` makes an
/// `Allocated`, and has no proof to give it.
#[derive(Clone, Copy, Debug, PartialEq, Eq)]
pub struct Allocated {
    pub count: u8,
    pub allocations: [Allocation; 16],
}

/// S5.4: what is fixed for the tasks of a set that have these shares: each block begins where the one before it ends.
pub fn allocations_of(set: &TaskSet, shares: &[Share; 16]) -> [Allocation; 16]
    requires { SharesFit set.now shares.now }
    ensures { result ≡ allocations_of set.now shares.now }
{
    let mut allocations = [Allocation::default(); 16];
    let mut typical: u8 = 0;
    let mut critical: u8 = 0;
    for i in 0..usize::from(set.count) {
        let share = shares[i];
        let rounded = virtual_deadline_of(set.tasks[i], share.typical);
        allocations[i] = Allocation {
            share,
            offset: Offset { typical, critical },
            virtual_deadline: rounded.ticks,
            remainder: rounded.remainder,
        };
        typical += share.typical;
        critical += share.critical;
    }
    allocations
}

/// S3.3: reads a sheet and chooses the shares: the reader's refusal, else the choice's, else what is fixed for its
/// tasks.
pub fn allocate(sheet: &[u8]) -> Result<Allocated, Refusal>
    ensures whole { result ≡ allocated_of sheet.now }
    ensures says { Says result (number_of (allocated_of sheet.now)) (task_of (allocated_of sheet.now)) }
{
    let set = read(sheet)?;
    // By a match, as Start has it: the refusal of the choice (S3.3) has an arm of its own.
    match choose(&set) {
        Ok(shares) => Ok(Allocated {
            count: set.count,
            allocations: allocations_of(&set, &shares),
        }),
        Err(refusal) => Err(refusal),
    }
}
