//! Input: words of the command line, and bytes that a buffer takes.
#![tactic(auto)]

ghost use Rattle.std.specs.Prelude.{◌≤◌, length, take};
ghost use Rattle.std.specs.Io.KnownBytes.{Consumes};

use std::env::{Env, FillError};
use std::io::Read;

/// Whether the command line has a word i. Word 0 is the program's name. No clause can say which words it has.
pub fn has_word(rt: &impl Env, i: usize) -> bool {
    !matches!(rt.arg(i, &mut []), Err(FillError::NotPresent))
}

/// Reads until the buffer is full, the input ends or a read fails, and answers how many bytes it put at the front of
/// the buffer. Where the reader's own contract tells what is left of the input, they are the next of it, and it goes
/// on behind them. On an empty buffer it makes no call. std's `read_exact` and `read_to_end` tell less of the bytes
/// once a read fails, so the loop stands here.
pub fn read_full<R: Read>(input: &mut R, buffer: &mut [u8]) -> usize
    ensures room { result ≤ length buffer.new }
    ensures bytes { Consumes (R.remaining input.old) (R.remaining input.new) (take result buffer.new) }
{
    let mut done = 0;
    while done < buffer.len() {
        match input.read(&mut buffer[done..]) {
            Ok(0) | Err(_) => break,
            Ok(n) => done += n,
        }
    }
    done
}
