//! S12.2: Start's answer and the records of a replay, in a lent buffer.
//! Each field is put at its place of S12.2: without a heap there is no type for a record, whose length n decides.
ghost use Rattle.std.specs.Prelude.{◌≡◌, ◌+◌, ◌*◌, ◌≤◌, length};
ghost use Rattle.std.proofs.lemmas.List.Edits.{sets};
ghost use Rattle.entries.specs.Entry.{row_of};
ghost use Rattle.dispatcher.specs.Holds.{model_of};
ghost use Rattle.guarantee.specs.Record.{outcome_number, refusal_number, named_task};
ghost use Rattle.guarantee.specs.Record.{answer_bytes, task_bytes, model_bytes, turn_bytes};

use crate::turn::Turn;
use basics::numbers::put_u32;
use dispatcher::state::State;
use dispatcher::tick::TickAnswer;
use entries::state::TaskState;
use sheet::refusal::{NO_TASK, Refusal};

/// S12.2: how many bytes the record of a call has, where there are so many tasks.
pub fn record_size(count: u8) -> usize
    ensures { result ≡ 4 + 9 * count }
{
    4 + 9 * usize::from(count)
}

/// S12.2: the number of an outcome.
fn outcome_number(outcome: TickAnswer) -> u8
    ensures { result ≡ outcome_number outcome }
{
    match outcome {
        TickAnswer::Ran => 0,
        TickAnswer::Switched(_) => 1,
        TickAnswer::Refused(_) => 2,
        TickAnswer::Returned => 3,
    }
}

/// S3.1: the number of the refusal, if it is one.
fn refusal_number(outcome: TickAnswer) -> Option<u8>
    ensures { result ≡ refusal_number outcome }
{
    match outcome {
        TickAnswer::Refused(refusal) => Some(refusal.number()),
        _ => None,
    }
}

/// S3.1, S8.7: the task that a switch or a refusal names, if there is one.
fn named_task(outcome: TickAnswer) -> Option<u8>
    ensures { result ≡ named_task outcome }
{
    match outcome {
        TickAnswer::Switched(task) => Some(task),
        TickAnswer::Refused(refusal) => refusal.task(),
        _ => None,
    }
}

/// What the state holds of a task: its alive mark, age and ended set.
fn put_task(out: &mut [u8], at: usize, e: &TaskState)
    requires { at + 9 ≤ length out.old }
    ensures { out.new ≡ sets out.old at (task_bytes (row_of e.now)) }
{
    out[at] = u8::from(e.job.alive);
    put_u32(out, at + 1, e.age);
    put_u32(out, at + 5, e.job.ended);
}

/// What the state holds: the mode and its tasks.
fn put_state(out: &mut [u8], at: usize, state: &State)
    requires line { state.now.count ≤ length state.now.entries }
    requires room { (state.now.count ≤ 16) × (at + 1 + 9 * state.now.count ≤ length out.old) }
    ensures { out.new ≡ sets out.old at (model_bytes (model_of state.now)) }
{
    out[at] = u8::from(state.critical);
    for (i, e) in state.entries[..usize::from(state.count)].iter().enumerate() {
        put_task(out, at + 1 + 9 * i, e);
    }
}

/// The record of a call.
pub fn put_turn(out: &mut [u8], at: usize, turn: &Turn)
    requires line { turn.now.state.count ≤ length turn.now.state.entries }
    requires room { (turn.now.state.count ≤ 16) × (at + 4 + 9 * turn.now.state.count ≤ length out.old) }
    ensures { out.new ≡ sets out.old at (turn_bytes turn.now) }
{
    out[at] = outcome_number(turn.answer);
    out[at + 1] = refusal_number(turn.answer).unwrap_or(0);
    out[at + 2] = named_task(turn.answer).unwrap_or(NO_TASK);
    put_state(out, at + 3, &turn.state);
}

/// Start's answer, at the front.
pub fn put_answer(out: &mut [u8], answer: Result<(), Refusal>)
    requires { 2 ≤ length out.old }
    ensures { out.new ≡ sets out.old 0 (answer_bytes answer) }
{
    match answer {
        Ok(()) => {
            out[0] = 0;
            out[1] = NO_TASK;
        }
        Err(refusal) => {
            out[0] = refusal.number();
            out[1] = refusal.task().unwrap_or(NO_TASK);
        }
    }
}
