//! Refusals 1 and 2: the header and the directory.
ghost use Rattle.std.specs.Prelude.{◌≡◌, ◌+◌, ◌*◌, ◌≤◌, ◌<◌};
ghost use Rattle.sheet.specs.Refusal.{◌or_else◌, first_over};
ghost use Rattle.sheet.specs.Format.{count_of, offset_of, length_of};
ghost use Rattle.reader.specs.Reading.{header_lawful, place_answer, end_answer};

use basics::numbers::{byte_at, u16_at};
use sheet::refusal::Refusal;

/// S2.3: where task i's entry of the directory begins. Where one of a task n would begin, the directory ends.
fn entry_place(i: u8) -> u16
    ensures { result ≡ 2 + 4 * i }
{
    2 + 4 * u16::from(i)
}

/// S2.3: where task i's record begins.
#[tactic(auto, using(crate::proofs::Records::offset_read))]
pub fn offset_of(s: &[u8], i: u8) -> u32
    ensures value { result ≡ offset_of s.now i }
    ensures bound { result < 65536 }
{
    u16_at(s, usize::from(entry_place(i)))
}

/// S2.3: the length of task i's record.
#[tactic(auto, using(crate::proofs::Records::length_read))]
pub fn length_of(s: &[u8], i: u8) -> u32
    ensures value { result ≡ length_of s.now i }
    ensures bound { result < 65536 }
{
    u16_at(s, usize::from(entry_place(i)) + 2)
}

/// S9.1: whether refusal 1 does not hold.
#[tactic(auto, unfolding(crate::specs::Reading::header_lawful, sheet::specs::Format::processors_of, sheet::specs::Format::count_of))]
pub fn header_lawful(s: &[u8]) -> bool
    ensures { result ≡ header_lawful s.now }
{
    let n = byte_at(s, 1);
    2 <= s.len()
        && (1..=64).contains(&byte_at(s, 0))
        && (1..=16).contains(&n)
        && usize::from(entry_place(n)) <= s.len()
}

/// S9.2: each record begins where the one before it ended, and the sheet ends with the last one.
pub fn places_answer(s: &[u8], n: u8) -> Result<(), Refusal>
    requires { (n ≡ count_of s.now) × (1 ≤ n) × (n ≤ 16) }
    ensures { result ≡ first_over (place_answer s.now) 0 n or_else end_answer s.now }
{
    let mut start = u32::from(entry_place(n));
    for i in 0..n {
        let offset = offset_of(s, i);
        if offset != start {
            return Err(Refusal::BadPlace(i));
        }
        start = offset + length_of(s, i);
    }
    // `u32` has no `From` to `usize`.
    if start as usize != s.len() {
        return Err(Refusal::BadPlace(n - 1));
    }
    Ok(())
}
