//! S8.1: Start, from a sheet to a fresh state.
#![tactic(auto)]

ghost use Rattle.std.specs.Prelude.{◌≡◌, ◌≤◌};
ghost use Rattle.sheet.specs.Refusal.{number_of, task_of, Says};
ghost use Rattle.start.specs.Start.{fresh_state, zero_state, start_of};

use crate::fresh::{fresh_entry, zero_entry};
use allocation::allocate::{Allocation, allocations_of};
use allocation::choice::choose;
use dispatcher::state::{Answered, State};
use reader::read;
use sheet::refusal::Refusal;
use sheet::task::TaskSet;

pub mod fresh;
pub mod promise;

/// Start's answer beside the state: a fresh one, or zeros where it was refused.
pub type Started = Answered<Result<(), Refusal>>;

/// S8.1: the state that a refused Start returns.
/// Written out, as its entries are.
#[tactic(auto, unfolding(crate::specs::Start::zero_state))]
pub fn zero_state() -> State
    ensures { result ≡ zero_state }
{
    State {
        processors: 0,
        count: 0,
        critical: false,
        entries: [zero_entry(); 16],
    }
}

/// S8.1: makes the state of zeros the fresh state of a task set with what is fixed for its tasks.
fn begin(state: &mut State, set: &TaskSet, allocations: &[Allocation; 16])
    requires few { set.now.count ≤ 16 }
    requires empty { state.old ≡ zero_state }
    ensures { state.new ≡ fresh_state set.now allocations.now }
{
    state.processors = set.processors;
    state.count = set.count;
    for i in 0..usize::from(set.count) {
        state.entries[i] = fresh_entry(&set.tasks[i], &allocations[i]);
    }
}

/// S8.1: Start into a state that the caller has, whatever it held: it becomes the fresh one, or zeros where the sheet
/// is refused. Where the reading is refused, that refusal is given on and nothing is chosen. `allocate` takes the same
/// steps, but it does not give back the task set, of which the state is made.
pub fn start_into(sheet: &[u8], state: &mut State) -> Result<(), Refusal>
    ensures answered { result ≡ (start_of sheet.now).answer }
    ensures says { Says result (number_of (start_of sheet.now).answer) (task_of (start_of sheet.now).answer) }
    ensures started { state.new ≡ (start_of sheet.now).state }
{
    *state = zero_state();
    let reading = read(sheet);
    let Ok(set) = &reading else {
        return reading.and(Ok(()));
    };
    match choose(set) {
        Ok(shares) => begin(state, set, &allocations_of(set, &shares)),
        Err(refusal) => return Err(refusal),
    }
    Ok(())
}

/// S8.1: reads a sheet, chooses the shares, fixes what each task gets and makes the state: a fresh one, or zeros where
/// the sheet is refused.
pub fn start(sheet: &[u8]) -> Started
    ensures whole { result ≡ start_of sheet.now }
    ensures says { Says result.answer (number_of (start_of sheet.now).answer) (task_of (start_of sheet.now).answer) }
{
    let mut state = zero_state();
    let answer = start_into(sheet, &mut state);
    Started { state, answer }
}
