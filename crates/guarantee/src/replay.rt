//! S12: a sheet and a log of calls, run through Start, Release and Tick.
ghost use Rattle.std.specs.Prelude.{◌≡◌, ◌+◌, ◌*◌, ◌≤◌, leb, length, Ok};
ghost use Rattle.std.proofs.lemmas.List.Edits.{sets};
ghost use Rattle.start.specs.Start.{start_of};
ghost use Rattle.guarantee.specs.Encoding.{calls_of};
ghost use Rattle.guarantee.specs.Replay.{records_of, calls_run, replayed_of, replay_over, ReplayGuaranteed};

use crate::encoding::{LoggedCalls, count_calls};
use crate::record::{put_answer, put_turn, record_size};
use crate::turn::turn_of;
use dispatcher::state::State;
use sheet::refusal::Refusal;
use start::start;

/// S12.2: the log that is run: none where Start refused.
fn log_run<'a>(answer: Result<(), Refusal>, calls: &'a [u8]) -> &'a [u8]
    ensures { calls_of result.now ≡ calls_run answer (calls_of calls.now) }
{
    match answer {
        Ok(()) => calls,
        Err(_) => &[],
    }
}

/// S12.3: whether a buffer has room for Start's answer and so many records of this size.
fn has_room(room: usize, count: usize, size: usize) -> bool
    requires { 1 ≤ size }
    ensures { result ≡ leb (2 + count * size) room }
{
    room.checked_sub(2).is_some_and(|left| count <= left / size)
}

/// S12.2: the records of the calls, from a place on. Each call gets the state of the one before it (S10.1).
fn put_turns(out: &mut [u8], from: usize, state: State, calls: &[u8])
    requires few { state.count ≤ 16 }
    requires room { from + length (records_of state (calls_of calls.now)) ≤ length out.old }
    ensures { out.new ≡ sets out.old from (records_of state (calls_of calls.now)) }
{
    let size = record_size(state.count);
    let mut current = state;
    // By a sum: `from + i * size` behind an `enumerate` was tried. It proves, once it is shown that the calls can be
    // counted, with twenty lines of proof more, and takes eight instructions more for each of 32 calls.
    let mut place = from;
    for call in LoggedCalls::new(calls) {
        let after = turn_of(&current, call);
        put_turn(out, place, &after);
        place += size;
        current = after.state;
    }
}

/// S12.2, S12.3: starts the sheet, runs the calls, writes each answer and what the state then holds, and says how many
/// bytes these are. A buffer that is too short for them stays as it is, and none is said.
pub fn replay(sheet: &[u8], calls: &[u8], out: &mut [u8]) -> Option<usize>
    ensures answered { result ≡ replayed_of sheet.now calls.now (length out.old) }
    ensures written { out.new ≡ replay_over sheet.now calls.now out.old }
    ensures promised { (start_of sheet.now).answer ≡ Ok tt → ReplayGuaranteed sheet.now calls.now }
{
    let started = start(sheet);
    let log = log_run(started.answer, calls);
    let count = count_calls(log);
    let size = record_size(started.state.count);
    if !has_room(out.len(), count, size) {
        return None;
    }
    put_answer(out, started.answer);
    put_turns(out, 2, started.state, log);
    Some(2 + count * size)
}
