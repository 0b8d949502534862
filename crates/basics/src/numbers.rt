//! S1.1: numbers in bytes, the lowest byte first.
//! A buffer is lent, of any length, since there is no heap. So a place in it goes beside it, and the room there and
//! what is written there (`sets`) are clauses, here and in the functions of other crates that write bytes.
ghost use Rattle.std.specs.Prelude.{◌≡◌, ◌+◌, ◌*◌, ◌≤◌, ◌<◌, ◌^◌, length};
ghost use Rattle.std.proofs.lemmas.List.Edits.{sets};
ghost use Rattle.basics.specs.Lists.{cells};
ghost use Rattle.basics.specs.Numbers.{byte_at, u16_at, u32_at, u16_bytes, u32_bytes};

/// The byte at a place; 0 past the end, as a definition reads it, so that no reader has to tell none from 0.
#[tactic(auto, using(std::proofs::lemmas::Option::gets), unfolding(crate::specs::Numbers::byte_at))]
pub fn byte_at(s: &[u8], at: usize) -> u8
    ensures { result ≡ byte_at s.now at }
{
    s.get(at).copied().unwrap_or(0)
}

/// Two bytes from a place on, the low one first.
#[tactic(auto, unfolding(crate::specs::Numbers::u16_at))]
pub fn u16_at(s: &[u8], at: usize) -> u32
    requires { at + 1 < 2 ^ 64 }
    ensures value { result ≡ u16_at s.now at }
    ensures bound { result < 65536 }
{
    u32::from(u16::from_le_bytes([byte_at(s, at), byte_at(s, at + 1)]))
}

/// Four bytes from a place on. The end is tested once for all of them.
#[tactic(auto, unfolding(crate::specs::Numbers::byte_at, crate::specs::Numbers::u16_at, crate::specs::Numbers::u32_at))]
pub fn u32_at(s: &[u8], at: usize) -> u32
    requires { at + 4 < 2 ^ 64 }
    ensures { result ≡ u32_at s.now at }
{
    if s.len() < at + 4 {
        return u16_at(s, at) + 65536 * u16_at(s, at + 2);
    }
    u32::from_le_bytes([s[at], s[at + 1], s[at + 2], s[at + 3]])
}

/// The first `count` numbers of four bytes from a place on, and zeros behind them.
pub fn u32s_at<const N: usize>(s: &[u8], at: usize, count: usize) -> [u32; N]
    requires room { at + 4 * count + 4 < 2 ^ 64 }
    requires fits { count ≤ N }
    ensures { result ≡ cells N (λ i. u32_at s.now (at + 4 * i)) 0 count }
{
    let mut numbers = [0; N];
    for i in 0..count {
        numbers[i] = u32_at(s, at + 4 * i);
    }
    numbers
}

/// Writes the low two bytes of a number from a place on. A line, as `put_u32` is: one function over the width would
/// be that line again.
#[tactic(auto, unfolding(crate::specs::Numbers::u16_bytes), using(crate::proofs::Stores::put_mid_sets))]
pub fn put_u16(out: &mut [u8], at: usize, x: u32)
    requires { at + 2 ≤ length out.old }
    ensures { out.new ≡ sets out.old at (u16_bytes x) }
{
    out[at..at + 2].copy_from_slice(&x.to_le_bytes()[..2]);
}

/// Writes a number in four bytes from a place on.
#[tactic(auto, unfolding(crate::specs::Numbers::u32_bytes), using(crate::proofs::Stores::put_mid_sets))]
pub fn put_u32(out: &mut [u8], at: usize, x: u32)
    requires { at + 4 ≤ length out.old }
    ensures { out.new ≡ sets out.old at (u32_bytes x) }
{
    out[at..at + 4].copy_from_slice(&x.to_le_bytes());
}
