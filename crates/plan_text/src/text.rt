//! A text that grows at its end.
//! No `write!`: it answers whether all fits, and here what does not fit is lost without an answer.
ghost use Rattle.std.specs.Prelude.{◌≡◌, ◌≤◌, [], length};
ghost use Rattle.plan_text.specs.Decimal.{decimal};
ghost use Rattle.plan_text.specs.means.Growth.{room, with_byte, with_bytes};

use std::marker::Model;

/// Room for sixteen lines of 26 bytes.
const ROOM: usize = 480;

/// The bytes written so far, 480 at most, in an array that is zero behind them. A clause sees the list of them.
/// A text is `Copy`, which an `ArrayVec` is not; so the array and its length stand here.
#[derive(Clone, Copy, Debug, PartialEq, Eq)]
pub struct Text {
    bytes: [u8; ROOM],
    len: usize,
}

impl Model for Text {
    ghost use Rattle.std.specs.Prelude.{ℕ, List, ◌≡◌, ◌≤◌, ◌-◌, ◌++◌, length, take, replicate};
    ghost use Rattle.plan_text.specs.means.Growth.{room};

    ghost Value = { List ℕ };

    ghost view = { λ t. take t.len t.bytes };

    ghost invariant = { λ t. (t.len ≤ room)
        × (take t.len t.bytes ++ replicate (room - length (take t.len t.bytes)) 0 ≡ t.bytes)
        × (length (take t.len t.bytes) ≡ t.len) };

    ghost inverse = { λ b. record { bytes = b ++ replicate (room - length b) 0; len = length b } };

    ghost inverse_ok = { λ t h i. record { bytes = h.1 i; len = h.2 i } };
}

impl Text {
    /// A text of no bytes.
    pub fn new() -> Text
        ensures { result ≡ [] }
    {
        Text {
            bytes: [0; ROOM],
            len: 0,
        }
    }

    /// The bytes of the text.
    pub fn as_bytes(&self) -> &[u8]
        ensures value { result.now ≡ self.now }
        ensures fits { length result.now ≤ room }
    {
        &self.bytes[..self.len]
    }

    /// Adds a byte; a full text stays as it is.
    #[tactic(auto, using(crate::proofs::Arrays::longer, crate::proofs::Growths::byte_lost))]
    pub fn push(&mut self, b: u8)
        ensures { self.new ≡ with_byte self.old b }
    {
        if self.len < ROOM {
            self.bytes[self.len] = b;
            self.len += 1;
        }
    }

    /// Adds bytes, one after the other.
    pub fn push_bytes(&mut self, bytes: &[u8])
        ensures { self.new ≡ with_bytes self.old bytes.now }
    {
        for b in bytes {
            self.push(*b);
        }
    }

    /// S6.3: adds the digits of a number.
    #[tactic(auto, using(crate::proofs::Growths::number_one, crate::proofs::Growths::number_more))]
    pub fn push_number(&mut self, n: u32)
        ensures { self.new ≡ with_bytes self.old (decimal n) }
    {
        if 10 <= n {
            self.push_number(n / 10);
        }
        // One digit: `u32` has no `From` to `u8`.
        self.push(b'0' + (n % 10) as u8);
    }
}
