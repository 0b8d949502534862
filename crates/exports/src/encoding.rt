//! S13.1: a state into its line.
ghost use Rattle.std.specs.Prelude.{◌≡◌, ◌≤◌, length};
ghost use Rattle.std.proofs.lemmas.List.Edits.{sets};
ghost use Rattle.exports.specs.Words.{entry_size, state_size, entry_words, state_words, EntryHeld, StateHeld};

use crate::words::ENTRY_WORDS;
use dispatcher::state::State;
use entries::state::TaskState;
use shares::share::Share;

/// S13.1: writes an entry over the first of these words. Field by field: S13.1 fixes the word of each.
fn write_entry(words: &mut [u32], e: &TaskState)
    requires { entry_size ≤ length words.old }
    ensures held { EntryHeld e.now }
    ensures written { words.new ≡ sets words.old 0 (entry_words e.now) }
{
    let TaskState {
        level,
        nodes,
        share: Share { typical, critical },
        ..
    } = *e;
    words[0] = u32::from(level);
    words[1] = u32::from(nodes);
    words[2..34].copy_from_slice(&e.predecessors);
    words[34] = e.deadline;
    words[35] = e.virtual_deadline;
    words[36] = u32::from(typical);
    words[37] = u32::from(critical);
    words[38] = e.age;
    words[39] = e.job.ended;
    words[40] = u32::from(e.job.alive);
}

/// S13.1: writes a state over a line.
pub fn write_state(line: &mut [u32], state: &State)
    requires { length line.old ≡ state_size }
    ensures held { StateHeld state.now }
    ensures written { line.new ≡ state_words state.now }
{
    line[0] = u32::from(state.processors);
    line[1] = u32::from(state.count);
    line[2] = u32::from(state.critical);
    for (i, e) in state.entries.iter().enumerate() {
        write_entry(&mut line[3 + ENTRY_WORDS * i..], e);
    }
}
