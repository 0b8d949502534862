//! S13.1: how many words a state has. Entry i begins at word 3 + 41 i: a sum that stands where a slice is taken, since
//! a name for it would say no more.
ghost use Rattle.std.specs.Prelude.{◌≡◌};
ghost use Rattle.exports.specs.Words.{state_size};

/// S13.1: the words of an entry: two, the masks, and seven.
pub const ENTRY_WORDS: usize = 2 + 32 + 7;

/// S13.1: the words of a state: three, and sixteen entries.
pub const STATE_WORDS: usize = 3 + 16 * ENTRY_WORDS;

/// S13.1: the words of a state.
#[unsafe(no_mangle)]
pub extern "C" fn dibwunek_state_words() -> usize
    ensures { result ≡ state_size }
{
    STATE_WORDS
}
