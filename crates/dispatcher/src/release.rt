//! S8.4: Release.
ghost use Rattle.std.specs.Prelude.{◌≡◌, not};
ghost use Rattle.sheet.specs.declared.refusal.Refusal.TheVariants.{NotSound};
ghost use Rattle.sheet.specs.Refusal.{number_of, task_of, refused_if, ◌or_else◌, Says};
ghost use Rattle.model.specs.Step.{release_refusal};
ghost use Rattle.dispatcher.specs.Holds.{model_of};
ghost use Rattle.dispatcher.specs.Sound.{is_sound};
ghost use Rattle.dispatcher.specs.Calls.{release_of};

use crate::state::{Answered, State};
use sheet::refusal::Refusal;

/// Release's answer beside the state that it returns.
pub type Released = Answered<Result<(), Refusal>>;

/// Refusals 10 to 13 (S9), the first that holds.
fn release_answer(state: &State, task: usize) -> Result<(), Refusal>
    ensures { result ≡ (
        refused_if (not (is_sound state.now)) NotSound or_else release_refusal (model_of state.now) task) }
{
    if !state.is_sound() {
        return Err(Refusal::NotSound);
    }
    if usize::from(state.count) <= task {
        return Err(Refusal::UnknownTask);
    }
    // A task below n is a byte: `try_from` would ask for an answer to a refusal that can't be.
    state.entries[task].release_answer(state.critical, task as u8)
}

/// S8.4: begins a job of a task. S3.4: a refused call hands the state back.
pub fn release(state: State, task: usize) -> Released
    ensures whole { result ≡ release_of state task }
    ensures says { Says result.answer
        (number_of (release_of state task).answer)
        (task_of (release_of state task).answer) }
{
    match release_answer(&state, task) {
        Err(refusal) => Released {
            state,
            answer: Err(refusal),
        },
        Ok(()) => {
            let mut next = state;
            next.entries[task].release();
            Released {
                state: next,
                answer: Ok(()),
            }
        }
    }
}
