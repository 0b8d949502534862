//! S6.1, S6.2: what is printed for a sheet.
ghost use Rattle.std.specs.Prelude.{◌≡◌, ◌≤◌, length, unwrap_or};
ghost use Rattle.sheet.specs.Refusal.{number, task, no_task};
ghost use Rattle.allocation.specs.means.Bounds.{AllBounded};
ghost use Rattle.plan_text.specs.means.Growth.{room};
ghost use Rattle.plan_text.specs.Printed.{fields_of, plan_lines, refusal_line, text_of, written_to};

use crate::line::push_line;
use crate::text::Text;
use allocation::allocate::{Allocated, Allocation, allocate};
use sheet::refusal::{NO_TASK, Refusal};

/// S6.1: task i, its typical offset and length, its critical offset and length, V, and the remainder.
/// No `From`: the number of the task is not in its allocation.
#[tactic(auto, unfolding(crate::specs::Printed::fields_of))]
fn fields_of(i: u8, a: &Allocation) -> [u32; 7]
    ensures { result ≡ fields_of i a.now }
{
    [
        u32::from(i),
        u32::from(a.offset.typical),
        u32::from(a.share.typical),
        u32::from(a.offset.critical),
        u32::from(a.share.critical),
        a.virtual_deadline,
        a.remainder,
    ]
}

/// S6.1: a line for each task.
#[tactic(auto, unfolding(allocation::specs::Allocation::allocation_at), using(crate::proofs::Tasks::lines_all, crate::proofs::Fitting::plan_step, crate::proofs::Fitting::plan_done))]
fn plan_lines(allocated: &Allocated) -> Text
    requires { AllBounded allocated.now.allocations allocated.now.count }
    ensures { result ≡ plan_lines allocated.now.count allocated.now.allocations }
{
    let mut text = Text::new();
    for i in 0..allocated.count {
        push_line(
            &mut text,
            &fields_of(i, &allocated.allocations[usize::from(i)]),
        );
    }
    text
}

/// S6.2: the text of a refusal.
#[tactic(auto, using(crate::proofs::Fitting::refusal_whole))]
fn refusal_line(refusal: Refusal) -> Text
    ensures { result ≡ refusal_line (number refusal) (unwrap_or (task refusal) no_task) }
{
    let number = u32::from(refusal.number());
    let task = u32::from(refusal.task().unwrap_or(NO_TASK));
    let mut text = Text::new();
    text.push_bytes(b"refused ");
    push_line(&mut text, &[number, task]);
    text
}

/// S6.1, S6.2: the text of a sheet.
#[tactic(auto, unfolding(crate::specs::Printed::text_of), using(crate::proofs::Fitting::fixed_bounded))]
fn text_of(sheet: &[u8]) -> Text
    ensures { result ≡ text_of sheet.now }
{
    match allocate(sheet) {
        Ok(allocated) => plan_lines(&allocated),
        Err(refusal) => refusal_line(refusal),
    }
}

/// S6.1, S6.2: writes the lines of a sheet's plan, or the line of its refusal, to the front of out, and answers the
/// number of their bytes, 480 at most. Where they do not fit, out stays as it is.
#[tactic(auto, unfolding(crate::specs::Printed::written_to))]
pub fn write_plan(sheet: &[u8], out: &mut [u8]) -> usize
    ensures counted { result ≡ length (text_of sheet.now) }
    ensures written { out.new ≡ written_to out.old (text_of sheet.now) }
    ensures bounded { result ≤ room }
{
    let text = text_of(sheet);
    let bytes = text.as_bytes();
    if bytes.len() <= out.len() {
        out[..bytes.len()].copy_from_slice(bytes);
    }
    bytes.len()
}
