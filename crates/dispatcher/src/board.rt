//! S8.8: Board.
ghost use Rattle.std.specs.Prelude.{◌≡◌, true, ◌+◌, ◌*◌, ◌≤◌, length};
ghost use Rattle.std.proofs.lemmas.List.Edits.{sets};
ghost use Rattle.nodes.specs.Sets.{members};
ghost use Rattle.sheet.specs.Refusal.{number_of, task_of, Says};
ghost use Rattle.dispatcher.specs.Holds.{model_of};
ghost use Rattle.dispatcher.specs.Sound.{is_sound};
ghost use Rattle.dispatcher.specs.Board.{idle, pairs_of, board_bytes, board_answer, boarded_of, board_of};

use crate::state::{Answered, State};
use nodes::NodeSet;
use sheet::refusal::Refusal;

/// S8.8: what stands in both bytes of a processor that runs nothing.
const UNUSED: u8 = 255;

/// Board's answer beside the state, which comes back as it is.
pub type Boarded = Answered<Result<(), Refusal>>;

/// S8.8: a pair for each of a task's nodes, lowest first, from a place on.
fn put_nodes(buffer: &mut [u8], at: usize, task: u8, nodes: NodeSet)
    requires { at + 2 * length (members 32 nodes) ≤ length buffer.old }
    ensures { buffer.new ≡ sets buffer.old at (pairs_of task (members 32 nodes)) }
{
    for (i, v) in nodes.iter().enumerate() {
        buffer[at + 2 * i] = task;
        // A member is below 32, and `u32` has no `From` to `u8`.
        buffer[at + 2 * i + 1] = v as u8;
    }
}

/// S8.8: each task's running nodes, at the front of its block (S5.4), on a board that shows nothing.
fn put_tasks(buffer: &mut [u8], state: &State)
    requires { (is_sound state.now ≡ true) × (buffer.old ≡ idle state.now.processors) }
    ensures { buffer.new ≡ board_bytes state.now.processors (model_of state.now) }
{
    // A block begins where the one before it ends (S5.4), so that its place is a sum.
    let mut at = 0;
    for (i, e) in state.entries[..usize::from(state.count)].iter().enumerate() {
        // i is below 16, and `usize` has no `From` to `u8`.
        put_nodes(buffer, at, i as u8, e.running(state.critical));
        at += 2 * usize::from(e.share.in_mode(state.critical));
    }
}

/// S8.8: writes the board, or is refused. S3.4: a refusal writes nothing.
#[tactic(auto, unfolding(crate::specs::Board::board_answer, crate::specs::Board::board_of, crate::specs::Board::idle))]
fn show(state: &State, buffer: &mut [u8]) -> Result<(), Refusal>
    ensures answered { result ≡ board_answer state.now (length buffer.old) }
    ensures written { buffer.new ≡ board_of state.now buffer.old }
{
    if !state.is_sound() {
        return Err(Refusal::NotSound);
    }
    if buffer.len() != 2 * usize::from(state.processors) {
        return Err(Refusal::WrongLength);
    }
    buffer.fill(UNUSED);
    put_tasks(buffer, state);
    Ok(())
}

/// S8.8: writes the 2M bytes that show which node each processor runs. S3.4: a refusal writes nothing.
#[tactic(auto, unfolding(crate::specs::Board::boarded_of))]
pub fn board(state: State, buffer: &mut [u8]) -> Boarded
    ensures answered { result ≡ boarded_of state (length buffer.old) }
    ensures says { Says result.answer
        (number_of (boarded_of state (length buffer.old)).answer)
        (task_of (boarded_of state (length buffer.old)).answer) }
    ensures written { buffer.new ≡ board_of state buffer.old }
{
    let answer = show(&state, buffer);
    Boarded { state, answer }
}
