//! S13.3: the calls of S8, each on a line that holds the state. Each says its own answers in its own words: what they
//! share is the guard, and one function over the four would take a closure for the call and another for the word.
ghost use Rattle.std.specs.Prelude.{◌≡◌};
ghost use Rattle.exports.specs.Calls.{start_call, release_call, tick_call, board_call, StartTaken};
ghost use Rattle.exports.specs.Ticks.{tick_word};

use crate::decoding::{is_state, state_from};
use crate::encoding::write_state;
use crate::words::STATE_WORDS;
use dispatcher::tick::TickAnswer;
use sheet::refusal::{answer_word, word_of};

/// S13.4: what a switch adds to the word. These three words are numbers, since C reads them.
const SWITCH: u32 = 65536;

/// S13.4: what a return adds to the word.
const RETURN: u32 = 131072;

/// S13.5: number 100, task 255.
pub const NOT_STATE: u32 = 100 + 256 * 255;

/// S13.4: a tick's answer as a word.
#[tactic(auto, unfolding(crate::specs::Ticks::tick_word, sheet::specs::Refusal::answer_word))]
pub fn tick_word(a: TickAnswer) -> u32
    ensures { result ≡ tick_word a }
{
    match a {
        TickAnswer::Ran => answer_word(Ok(())),
        TickAnswer::Switched(task) => SWITCH + word_of(0, task),
        TickAnswer::Returned => RETURN + answer_word(Ok(())),
        TickAnswer::Refused(refusal) => answer_word(Err(refusal)),
    }
}

/// S8.1: Start. A refused sheet leaves the line as it was; the line's own words are not read. S13.8: what an accepted
/// one leaves is a state.
#[unsafe(no_mangle)]
pub extern "C" fn dibwunek_start(sheet: &[u8], state: &mut [u32]) -> u32
    ensures answered { result ≡ (start_call sheet.now state.old).word }
    ensures written { state.new ≡ (start_call sheet.now state.old).left }
    ensures taken { StartTaken sheet.now state.old state.new }
{
    if state.len() != STATE_WORDS {
        return NOT_STATE;
    }
    let mut started = start::zero_state();
    let answer = start::start_into(sheet, &mut started);
    if let Err(refusal) = answer {
        return answer_word(Err(refusal));
    }
    write_state(state, &started);
    answer_word(answer)
}

/// S8.4: Release.
#[unsafe(no_mangle)]
pub extern "C" fn dibwunek_release(state: &mut [u32], task: usize) -> u32
    ensures answered { result ≡ (release_call state.old task).word }
    ensures written { state.new ≡ (release_call state.old task).left }
{
    if !is_state(state) {
        return NOT_STATE;
    }
    let before = state_from(state);
    let released = dispatcher::release::release(before, task);
    if let Err(refusal) = released.answer {
        return answer_word(Err(refusal));
    }
    write_state(state, &released.state);
    answer_word(released.answer)
}

/// S8.5: Tick.
#[unsafe(no_mangle)]
pub extern "C" fn dibwunek_tick(state: &mut [u32], reports: &[u32]) -> u32
    ensures answered { result ≡ (tick_call state.old reports.now).word }
    ensures written { state.new ≡ (tick_call state.old reports.now).left }
{
    if !is_state(state) {
        return NOT_STATE;
    }
    let before = state_from(state);
    let ticked = dispatcher::tick::tick(before, reports);
    if let TickAnswer::Refused(refusal) = ticked.answer {
        return answer_word(Err(refusal));
    }
    write_state(state, &ticked.state);
    tick_word(ticked.answer)
}

/// S8.8: Board.
#[unsafe(no_mangle)]
pub extern "C" fn dibwunek_board(state: &[u32], buffer: &mut [u8]) -> u32
    ensures answered { result ≡ (board_call state.now buffer.old).word }
    ensures written { buffer.new ≡ (board_call state.now buffer.old).left }
{
    if !is_state(state) {
        return NOT_STATE;
    }
    let shown = state_from(state);
    let boarded = dispatcher::board::board(shown, buffer);
    answer_word(boarded.answer)
}
