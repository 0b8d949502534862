//! S14.1: the numerals of a text, read one after the other.
ghost use Rattle.std.specs.Prelude.{◌≡◌, ◌≤◌, ◌+◌, ◌-◌, ◌*◌, true, [], length, Ok, None, IfOk, MatchResult, OnErr, Some};
ghost use Rattle.std.specs.Option.{SomeIff};
ghost use Rattle.graph_text.specs.Text.{before_mark, is_blank, numeral_limit, numerals_of};
ghost use Rattle.graph_text.specs.means.Scan.{BeginsFull, IsRest, number_before, numerals_after, Takes, TakesMaybe, Told};

use std::error::Error;
use std::fmt;
use std::marker::Model;

/// S14.1 to S14.3: the text is not of the format.
#[derive(Clone, Copy, Debug, PartialEq, Eq)]
pub struct BadFormat;

impl fmt::Display for BadFormat {
    fn fmt<W: fmt::Write>(&self, f: &mut fmt::Formatter<W>) -> fmt::Result {
        write!(f, "no graph in the Standard Task Graph format")
    }
}

impl Error for BadFormat {}

/// A text of which numerals are read. A clause sees the numerals that are left, or that something else stands
/// among them.
#[derive(Clone, Drop)]
pub struct Numerals<'a> {
    rest: &'a [u8],
}

impl<'a> Model for Numerals<'a> {
    ghost use Rattle.std.specs.Prelude.{ℕ, List, Option};
    ghost use Rattle.graph_text.specs.Text.{numerals_of};

    ghost Value = { Option (List ℕ) };

    ghost view = { λ r. numerals_of r.rest.now };
}

impl<'a> Numerals<'a> {
    /// The numerals of a text.
    pub fn new(text: &'a [u8]) -> Numerals<'a>
        ensures { result ≡ numerals_of text.now }
    {
        Numerals { rest: text }
    }

    /// Whether no byte is left.
    pub fn is_empty(&self) -> bool
        ensures { result ≡ true → self.now ≡ Some [] }
    {
        self.rest.is_empty()
    }

    /// The same numerals, to be read apart.
    pub(crate) fn again(&self) -> Numerals<'a>
        ensures { result ≡ self.now }
    {
        Numerals { rest: self.rest }
    }

    /// The next numeral, or none at the end. Where none is told, the same numerals are left.
    pub fn next_numeral(&mut self) -> Result<Option<u16>, BadFormat>
        ensures told { TakesMaybe self.old self.new result }
        ensures kept_at_end { result ≡ Ok None → self.new ≡ self.old }
        ensures kept_at_fault { OnErr result (self.new ≡ self.old) }
    {
        read_numeral(&mut self.rest)
    }

    /// A numeral that has to be there. Where none is told, the same numerals are left.
    pub fn take(&mut self) -> Result<u16, BadFormat>
        ensures told { Takes self.old self.new result }
        ensures kept { OnErr result (self.new ≡ self.old) }
    {
        self.next_numeral()?.ok_or(BadFormat)
    }
}

/// The numeral from a place of a text on, with the place behind it, or none where none is left.
pub fn next_numeral(text: &[u8], from: usize) -> Result<Option<(u16, usize)>, BadFormat>
    requires { from ≤ length text.now }
    ensures { Told text.now from result }
{
    let mut rest = &text[from..];
    let Some(value) = read_numeral(&mut rest)? else {
        return Ok(None);
    };
    Ok(Some((value, text.len() - rest.len())))
}

/// The next numeral, or none at the end; `rest` becomes what is left behind it. Where none is told, it stays.
#[tactic(auto, using(crate::proofs::Rests::rest_whole))]
fn read_numeral(rest: &mut &[u8]) -> Result<Option<u16>, BadFormat>
    ensures told { TakesMaybe (numerals_of rest.old.now) (numerals_of rest.new.now) result }
    ensures left { IfOk result (λ _. IsRest rest.old.now rest.new.now) }
    ensures kept_at_end { result ≡ Ok None → rest.new.now ≡ rest.old.now }
    ensures kept_at_fault { OnErr result (rest.new.now ≡ rest.old.now) }
{
    let text = after_blanks(rest);
    let Some((b, behind)) = text.split_first() else {
        return Ok(None);
    };
    if *b == b'#' {
        return Ok(None);
    }
    if !b.is_ascii_digit() {
        return Err(BadFormat);
    }
    let (value, behind) = read_digits(behind, u16::from(*b - b'0'))?;
    *rest = behind;
    Ok(Some(value))
}

/// A tab, a line feed, a carriage return or a space. By `matches!` an import takes a tenth more instructions.
#[tactic(auto, unfolding(crate::specs::Text::is_blank))]
fn is_blank(b: u8) -> bool
    ensures { result ≡ is_blank b }
{
    (b == b'\t') | (b == b'\n') | (b == b'\r') | (b == b' ')
}

/// What is left of a text from the first byte on that is no blank.
#[tactic(auto, using(crate::proofs::Rests::rest_whole))]
fn after_blanks(text: &[u8]) -> &[u8]
    ensures same { numerals_of result.now ≡ numerals_of text.now }
    ensures left { IsRest text.now result.now }
    ensures stops { BeginsFull result.now }
{
    let mut rest = text;
    while let Some((b, behind)) = rest.split_first() {
        if !is_blank(*b) {
            break;
        }
        rest = behind;
    }
    rest
}

/// A value with one digit more, if that is at most the greatest numeral.
fn with_digit(value: u32, b: u8) -> Option<u32>
    requires { (value ≤ numeral_limit) × (48 ≤ b) × (b ≤ 57) }
    ensures { SomeIff result (10 * value + (b - 48) ≤ numeral_limit) (10 * value + (b - 48)) }
{
    let more = 10 * value + u32::from(b - b'0');
    (more <= u32::from(u16::MAX)).then_some(more)
}

/// The numeral that begins with the digit `first` and whose other digits are at the front of a text, and what
/// is left.
#[tactic(auto, using(crate::proofs::Rests::rest_whole))]
fn read_digits(text: &[u8], first: u16) -> Result<(u16, &[u8]), BadFormat>
    ensures told { MatchResult result
        (λ r. numerals_after first (before_mark text.now) ≡ number_before r.0 (numerals_of r.1.now))
        (λ _. numerals_after first (before_mark text.now) ≡ None) }
    ensures left { IfOk result (λ r. IsRest text.now r.1.now) }
{
    // A walk of its own: `after_blanks` keeps no value and can't fail. The value is a `u32` on the way: from a `u16` each
    // digit would wait for a conversion more.
    let mut value = u32::from(first);
    let mut rest = text;
    while let Some((b, behind)) = rest.split_first() {
        if !b.is_ascii_digit() {
            break;
        }
        value = with_digit(value, *b).ok_or(BadFormat)?;
        rest = behind;
    }
    // At most the greatest numeral, and `u32` has no `From` to `u16`.
    Ok((value as u16, rest))
}
