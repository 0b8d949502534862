//! The plan of a sheet: its answer, and its bytes in a lent buffer.
ghost use Rattle.std.specs.Prelude.{◌≡◌, [], ◌∷◌, ◌+◌, ◌*◌, ◌≤◌, length};
ghost use Rattle.std.proofs.lemmas.List.Edits.{sets};
ghost use Rattle.sheet.specs.Refusal.{number_of, task_of, Says};
ghost use Rattle.allocation.specs.means.Bounds.{Bounded, AllBounded};
ghost use Rattle.planner.specs.Plan.{plan_bytes, plan_answer, planned};
ghost use Rattle.planner.specs.means.Writing.{TaskFits, with_task};

use allocation::allocate::{Allocated, Allocation, allocate};
use basics::numbers::put_u32;
use sheet::refusal::Refusal;

/// Writes two bytes at a place. They are two numbers, and `put_u16` writes one.
fn put_pair(buffer: &mut [u8], at: usize, x: u8, y: u8)
    requires { at + 2 ≤ length buffer.old }
    ensures { buffer.new ≡ sets buffer.old at (x ∷ y ∷ []) }
{
    buffer[at] = x;
    buffer[at + 1] = y;
}

/// S5.5: task i's bytes in the four parts of a plan of n tasks: the typical blocks, the critical blocks, the virtual
/// deadlines and the remainders. In each part task i has its place, so that no slice of the buffer is a task's.
fn write_task(buffer: &mut [u8], n: usize, i: usize, a: &Allocation)
    requires task_fits { TaskFits n i (length buffer.old) }
    requires bounded { Bounded a.now }
    ensures { buffer.new ≡ with_task n i a.now buffer.old }
{
    put_pair(buffer, 2 * i, a.offset.typical, a.share.typical);
    put_pair(buffer, 2 * n + 2 * i, a.offset.critical, a.share.critical);
    put_u32(buffer, 4 * n + 4 * i, a.virtual_deadline);
    // `Bounded`: below 64.
    buffer[8 * n + i] = a.remainder as u8;
}

/// S5.5: the plan's 9n bytes, at the front of the buffer.
fn write_plan(buffer: &mut [u8], allocated: &Allocated)
    requires room { 9 * allocated.now.count ≤ length buffer.old }
    requires all_bounded { AllBounded allocated.now.allocations allocated.now.count }
    ensures { buffer.new ≡ sets buffer.old 0 (plan_bytes allocated.now.count allocated.now.allocations) }
{
    let count = usize::from(allocated.count);
    for (i, allocation) in allocated.allocations[..count].iter().enumerate() {
        write_task(buffer, count, i, allocation);
    }
}

/// Plan: the allocation's refusals, then 9, and then the plan's 9n bytes; a refusal writes nothing.
pub fn plan(sheet: &[u8], buffer: &mut [u8]) -> Result<(), Refusal>
    ensures answered { result ≡ plan_answer sheet.now (length buffer.old) }
    ensures says { Says result
        (number_of (plan_answer sheet.now (length buffer.old)))
        (task_of (plan_answer sheet.now (length buffer.old))) }
    ensures written { buffer.new ≡ planned sheet.now buffer.old }
{
    let allocated = allocate(sheet)?;
    if buffer.len() < 9 * usize::from(allocated.count) {
        return Err(Refusal::ShortBuffer);
    }
    write_plan(buffer, &allocated);
    Ok(())
}
