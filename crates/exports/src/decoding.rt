//! S13.1, S13.2: which lines are states, and a state out of its line. An `Option<State>` says both in one step, and was
//! tried: it costs a call 5,000 instructions more, since the slot of such a value is filled before each call that
//! returns one.
ghost use Rattle.std.specs.Prelude.{◌≡◌, ◌≤◌, true, length, take, drop};
ghost use Rattle.basics.specs.Lists.{all_below};
ghost use Rattle.exports.specs.Words.{entry_size, entry_start, state_size, entry_from, state_from, entry_fits, is_state};

use crate::words::{ENTRY_WORDS, STATE_WORDS};
use dispatcher::state::State;
use entries::state::{Job, TaskState};
use shares::share::Share;
use start::fresh::zero_entry;

/// S13.2: whether the first of these words fit the fields of an entry.
#[tactic(auto, unfolding(crate::specs::Words::entry_fits))]
fn entry_fits(words: &[u32]) -> bool
    requires { entry_size ≤ length words.now }
    ensures { result ≡ entry_fits words.now }
{
    words[0] < 256 && words[1] < 256 && words[36] < 256 && words[37] < 256 && words[40] < 2
}

/// S13.2: whether the words of each entry fit its fields.
fn entries_fit(line: &[u32]) -> bool
    requires { length line.now ≡ state_size }
    ensures { result ≡ all_below 16 (λ i. entry_fits (drop (entry_start i) line.now)) }
{
    (0..16).all(|i| entry_fits(&line[3 + ENTRY_WORDS * i..]))
}

/// S13.2: whether a line is a state.
/// C hands in slices of any length: so the lengths of a line and of an entry's words are clauses and no types.
#[tactic(auto, unfolding(crate::specs::Words::is_state))]
pub fn is_state(line: &[u32]) -> bool
    ensures { result ≡ is_state line.now }
{
    line.len() == STATE_WORDS && line[0] < 256 && line[1] < 256 && line[2] < 2 && entries_fit(line)
}

/// S13.1: the masks among the words of an entry. By index: `copy_from_slice` is left as a call, by which a release or a
/// tick on a line takes a quarter more time.
fn masks_from(words: &[u32]) -> [u32; 32]
    requires { entry_size ≤ length words.now }
    ensures { result ≡ take 32 (drop 2 words.now) }
{
    let mut masks = [0; 32];
    for v in 0..32 {
        masks[v] = words[2 + v];
    }
    masks
}

/// S13.1: the entry that the first of these words say. The casts lose nothing: each word fits its field.
fn entry_from(words: &[u32]) -> TaskState
    requires room { entry_size ≤ length words.now }
    requires fits { entry_fits words.now ≡ true }
    ensures { result ≡ entry_from words.now }
{
    let share = Share {
        typical: words[36] as u8,
        critical: words[37] as u8,
    };
    TaskState {
        level: words[0] as u8,
        nodes: words[1] as u8,
        predecessors: masks_from(words),
        deadline: words[34],
        virtual_deadline: words[35],
        share,
        age: words[38],
        job: Job {
            ended: words[39],
            alive: words[40] != 0,
        },
    }
}

/// S13.1: the state that a line says.
pub fn state_from(line: &[u32]) -> State
    requires { is_state line.now ≡ true }
    ensures { result ≡ state_from line.now }
{
    // `is_state`: M and n are below 256.
    let mut state = State {
        processors: line[0] as u8,
        count: line[1] as u8,
        critical: line[2] != 0,
        entries: [zero_entry(); 16],
    };
    // By index: `chunks_exact(ENTRY_WORDS).enumerate()` was proved, and takes 13 of 7,155 instructions more for a line.
    for i in 0..16 {
        state.entries[i] = entry_from(&line[3 + ENTRY_WORDS * i..]);
    }
    state
}
