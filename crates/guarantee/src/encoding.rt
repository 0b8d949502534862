//! S12.1: a log of calls, read in place.
ghost use Rattle.std.specs.Prelude.{◌≡◌, ◌+◌, ◌*◌, ◌≤◌, length, take};
ghost use Rattle.std.specs.Iterator.{YieldsFirstBy, item_count};
ghost use Rattle.basics.specs.Numbers.{byte_at};
ghost use Rattle.guarantee.specs.Encoding.{asked_by, Decodes, reports_at, call_in, calls_of};

use basics::numbers::{byte_at, u32s_at};

/// S12.1: the kind of a call.
#[derive(Clone, Copy, Debug, PartialEq, Eq)]
pub enum Kind {
    Release,
    Tick,
}

/// S12.1: a byte that is no call's kind.
#[derive(Clone, Copy, Debug, PartialEq, Eq)]
pub struct UnknownKind(pub u8);

impl TryFrom<u8> for Kind {
    type Error = UnknownKind;

    ghost try_from_gives = { Decodes };

    #[tactic(auto, unfolding(crate::specs::Encoding::kind_of))]
    fn try_from(byte: u8) -> Result<Self, UnknownKind> {
        match byte {
            0 => Ok(Kind::Release),
            1 => Ok(Kind::Tick),
            _ => Err(UnknownKind(byte)),
        }
    }
}

/// S12.1: how many bytes a call of this kind asks for; its second byte is the number of a tick's reports. It is read for
/// a tick alone: a release does not wait for it.
#[tactic(auto, unfolding(crate::specs::Encoding::asked_by))]
fn asked_by(kind: Kind, call: &[u8]) -> usize
    ensures value { result ≡ asked_by kind (byte_at call.now 1) }
    ensures some { 1 ≤ result }
{
    match kind {
        Kind::Release => 5,
        Kind::Tick => 2 + 4 * usize::from(byte_at(call, 1)),
    }
}

/// S12.1: a call that stands whole in a log: its kind, and its bytes.
#[derive(Clone, Copy, Debug, PartialEq, Eq)]
pub struct LoggedCall<'a> {
    pub kind: Kind,
    pub bytes: &'a [u8],
    ghost whole: { asked_by kind (byte_at bytes.now 1) ≤ length bytes.now },
}

/// S12.1: the calls of a log, one after the other.
#[derive(Drop)]
pub struct LoggedCalls<'a> {
    rest: &'a [u8],
}

impl<'a> LoggedCalls<'a> {
    /// All calls of a log.
    pub fn new(log: &'a [u8]) -> LoggedCalls<'a>
        ensures { result.rest.now ≡ log.now }
    {
        LoggedCalls { rest: log }
    }
}

impl<'a> Iterator for LoggedCalls<'a> {
    type Item = LoggedCall<'a>;

    ghost next_gives = { YieldsFirstBy (λ c. call_in c.kind c.bytes.now) (λ s. calls_of s.rest.now) };

    ghost remaining = { item_count (λ s. calls_of s.rest.now) };

    fn next(&mut self) -> Option<LoggedCall<'a>> {
        let kind = Kind::try_from(byte_at(self.rest, 0)).ok()?;
        let size = asked_by(kind, self.rest);
        let (bytes, rest) = self.rest.split_at_checked(size)?;
        self.rest = rest;
        Some(LoggedCall { kind, bytes })
    }
}

/// How many calls the log has.
pub fn count_calls(calls: &[u8]) -> usize
    ensures { result ≡ length (calls_of calls.now) }
{
    LoggedCalls::new(calls).count()
}

/// The reports of a tick, and zeros behind them: 255, as many as a byte counts, since there is no heap.
pub fn reports_of(call: &[u8], count: u8) -> [u32; 255]
    requires { 2 + 4 * count ≤ length call.now }
    ensures value { take count result ≡ reports_at call.now 2 count }
    ensures long { length result ≡ 255 }
{
    u32s_at(call, 2, usize::from(count))
}
