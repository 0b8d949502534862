//! Calls of the dispatcher made a number of times, with the line read once, for the benchmarks. Three short
//! loops: one function over a closure was tried. It could only promise the steps of the closure (`FoldsTo`), of which
//! each call would prove its word anew, and of the buffer that the closure of the boards borrows nothing is known after.
ghost use Rattle.std.specs.Prelude.{◌≡◌};
ghost use Rattle.exports.specs.Repeats.{ticks_call, releases_call, boards_call};

use crate::decoding::{is_state, state_from};
use crate::dispatching::{NOT_STATE, tick_word};
use sheet::refusal::answer_word;

/// The answer of the last of `count` ticks with the same reports, each on the state that the one before returned.
#[unsafe(no_mangle)]
pub extern "C" fn dibwunek_tick_many(state: &[u32], reports: &[u32], count: u32) -> u32
    ensures { result ≡ (ticks_call count state.now reports.now).word }
{
    if !is_state(state) {
        return NOT_STATE;
    }
    let mut s = state_from(state);
    let mut word = answer_word(Ok(()));
    for _ in 0..count {
        let ticked = dispatcher::tick::tick(s, reports);
        word = tick_word(ticked.answer);
        s = ticked.state;
    }
    word
}

/// The answer of the last of `count` releases of a task, each on the state of the line.
#[unsafe(no_mangle)]
pub extern "C" fn dibwunek_release_many(state: &[u32], task: usize, count: u32) -> u32
    ensures { result ≡ (releases_call count state.now task).word }
{
    if !is_state(state) {
        return NOT_STATE;
    }
    let before = state_from(state);
    // Two copies by turns: with one the compiler makes the tests of all calls once, and no release is measured.
    let copies = [before, before];
    let mut word = answer_word(Ok(()));
    for i in 0..count {
        // Below 2, and `u32` has no `From` to `usize`.
        let released = dispatcher::release::release(copies[(i % 2) as usize], task);
        word = answer_word(released.answer);
    }
    word
}

/// The answer of the last of `count` boards of the line's state, all in the same buffer.
#[unsafe(no_mangle)]
pub extern "C" fn dibwunek_board_many(state: &[u32], buffer: &mut [u8], count: u32) -> u32
    ensures answered { result ≡ (boards_call count state.now buffer.old).word }
    ensures written { buffer.new ≡ (boards_call count state.now buffer.old).left }
{
    if !is_state(state) {
        return NOT_STATE;
    }
    let shown = state_from(state);
    let mut word = answer_word(Ok(()));
    for _ in 0..count {
        let boarded = dispatcher::board::board(shown, buffer);
        word = answer_word(boarded.answer);
    }
    word
}
