//! What the level of a task says (S2.6, S2.7, S2.9). All else asks here.
//!
//! A level stays a byte. No enum of the four can hold it, since a state that is handed in may hold any byte (S7.2). A
//! struct around the byte is no plainer: with a `Model` a clause would see the byte still, and a state, which goes by
//! value, would no longer be copied, as no `Copy` struct is that holds one with a `Model`; without it every clause
//! would say one field more.
ghost use Rattle.std.specs.Prelude.{◌≡◌, ◌<◌};
ghost use Rattle.sheet.specs.Level.{level_lawful, is_high, is_low, is_wide, figure_limit, bytes_before_masks};

/// S2.7: low is 0, high is 1; in the wide form they are 16 and 17.
#[tactic(auto, unfolding(crate::specs::Level::level_lawful))]
pub fn is_lawful(level: u8) -> bool
    ensures { result ≡ level_lawful level }
{
    matches!(level, 0 | 1 | 16 | 17)
}

/// S2.6: whether a task of this level is high.
#[tactic(auto, unfolding(crate::specs::Level::is_high))]
pub fn is_high(level: u8) -> bool
    ensures { result ≡ is_high level }
{
    matches!(level, 1 | 17)
}

/// S2.6: whether a task of this level is low, which is to say not high.
#[tactic(auto, unfolding(crate::specs::Level::is_low))]
pub fn is_low(level: u8) -> bool
    ensures { result ≡ is_low level }
{
    !is_high(level)
}

/// S2.6: whether the record is in the wide form.
#[tactic(auto, unfolding(crate::specs::Level::is_wide))]
pub fn is_wide(level: u8) -> bool
    ensures { result ≡ is_wide level }
{
    16 <= level
}

/// S2.9: the greatest figure.
/// By a test of its own, as `bytes_before_masks`: a table of the two forms would read no plainer.
#[tactic(auto, unfolding(crate::specs::Level::figure_limit))]
pub fn figure_limit(level: u8) -> u32
    ensures { result ≡ figure_limit level }
{
    if is_wide(level) { 1_000_000 } else { 10_000 }
}

/// S2.6: the bytes of a record before its masks.
/// By a test of its own, as `figure_limit`.
#[tactic(auto, unfolding(crate::specs::Level::bytes_before_masks))]
pub fn bytes_before_masks(level: u8) -> u32
    ensures value { result ≡ bytes_before_masks level }
    ensures bound { result < 256 }
{
    if is_wide(level) { 22 } else { 12 }
}
