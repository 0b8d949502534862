//! S10.1, S12.2: one call of a log, put to Release or Tick.
ghost use Rattle.std.specs.Prelude.{◌≡◌, ◌≤◌, ◌+◌, ◌*◌, length};
ghost use Rattle.basics.specs.Numbers.{byte_at};
ghost use Rattle.model.specs.Step.{release, tick};
ghost use Rattle.guarantee.specs.Encoding.{reports_at, call_in};
ghost use Rattle.guarantee.specs.Runs.{released};
ghost use Rattle.guarantee.specs.Record.{outcome_of, turn_of};

use crate::encoding::{Kind, LoggedCall, reports_of};
use basics::numbers::{byte_at, u32_at};
use dispatcher::release::release;
use dispatcher::state::State;
use dispatcher::tick::{TickAnswer, Ticked, tick};
use sheet::refusal::Refusal;

/// S12.2: a call's outcome beside the state that it returned. A Release ends as a tick that ran, or that was refused.
pub type Turn = Ticked;

/// S12.2: the outcome of a Release.
/// No `From`: neither type is of this crate.
fn released_outcome(answer: Result<(), Refusal>) -> TickAnswer
    ensures { result ≡ outcome_of (released answer) }
{
    match answer {
        Ok(()) => TickAnswer::Ran,
        Err(refusal) => TickAnswer::Refused(refusal),
    }
}

/// A Release of a task, put to a state.
fn by_release(state: &State, task: usize) -> Turn
    ensures { result ≡ turn_of state.now (release task) }
{
    let released = release(*state, task);
    Turn {
        state: released.state,
        answer: released_outcome(released.answer),
    }
}

/// A Tick with these reports, put to a state.
#[tactic(auto, unfolding(crate::specs::Record::turn_of))]
fn by_tick(state: &State, reports: &[u32]) -> Turn
    ensures { result ≡ turn_of state.now (tick reports.now) }
{
    tick(*state, reports)
}

/// A logged call, put to a state. A tick's reports are read here: a function between would have a turn of its own to
/// fill, and a replay would take a quarter more time.
#[tactic(auto, unfolding(crate::specs::Encoding::call_in, crate::specs::Encoding::asked_by))]
pub fn turn_of(state: &State, call: LoggedCall) -> Turn
    ensures { result ≡ turn_of state.now (call_in call.entry.kind call.entry.bytes.now) }
{
    match call.kind {
        // `u32` has no `From` to `usize`.
        Kind::Release => by_release(state, u32_at(call.bytes, 1) as usize),
        Kind::Tick => {
            let count = byte_at(call.bytes, 1);
            let reports = reports_of(call.bytes, count);
            by_tick(state, &reports[..usize::from(count)])
        }
    }
}
