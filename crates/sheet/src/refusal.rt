//! S3 and S9: why a call is refused.
ghost use Rattle.std.specs.Prelude.{◌≡◌, ◌≤◌, ◌+◌, ◌*◌};
ghost use Rattle.sheet.specs.Refusal.{number, task, answer_word};

use std::error::Error;
use std::fmt;

/// S9: the refusals, each with the number of the task at fault where it names one.
/// `Says` is a clause of each call: which number and which task its answer has is of the call, so no type holds it.
#[derive(Clone, Copy, Debug, PartialEq, Eq)]
pub enum Refusal {
    /// S9.1: the sheet has fewer than two bytes, M or n is out of its range, or the directory does not end within the
    /// sheet.
    BadHeader,
    /// S9.2: a record's offset is not where it has to begin (S2.4); or all are, and the last record does not end with
    /// the sheet, which is a fault of the last task.
    BadPlace(u8),
    /// S9.3: the level, the number of nodes or the length is not as S2.7 asks. A record of fewer than two bytes has a
    /// wrong length.
    BadRecord(u8),
    /// S9.4: a rule for the figures does not hold (S2.9, S2.10, S2.11).
    BadFigure(u8),
    /// S9.5: a mask breaks S2.12: it names a node that is no lower than its own.
    BadMask(u8),
    /// S9.6: the task is not heavy: CO ≤ D.
    NotHeavy(u8),
    /// S9.7: the task has no share (S4.1), or no pair within M passes for it (S4.2).
    NoShare(u8),
    /// S9.8: no choice fits.
    NoFit,
    /// S9.9: the plan's buffer has fewer than 9n bytes.
    ShortBuffer,
    /// S9.10: the state is not sound.
    NotSound,
    /// S9.11: there is no task of this number: it is n or more.
    UnknownTask,
    /// S9.12: the task is low and not kept (S7.4), and the mode is critical.
    LowInCritical(u8),
    /// S9.13: the task's job is alive, or its age is below D.
    TooEarly(u8),
    /// S9.14: there are not just n reports.
    WrongCount,
    /// S9.15: a report names a node that is not running.
    NotRunning(u8),
    /// S9.16: Board's buffer has not just 2M bytes.
    WrongLength,
    /// S9.17: the text is not of the format (S14.1 to S14.3), the level or the percentage is not as S14.6 asks, or the
    /// buffer has fewer than 12 bytes and 4 times the count.
    BadText,
    /// S9.18: the count is 0 or more than 32, or an entry breaks S14.4.
    BadGraph,
    /// S9.19: D, CN, CO, LN or LO is not from 1 to 10,000.
    FigureOutside,
}

impl Refusal {
    /// S9: its number.
    pub fn number(self) -> u8
        ensures value { result ≡ number self }
        ensures bound { (1 ≤ result) × (result ≤ 19) }
    {
        match self {
            Refusal::BadHeader => 1,
            Refusal::BadPlace(_) => 2,
            Refusal::BadRecord(_) => 3,
            Refusal::BadFigure(_) => 4,
            Refusal::BadMask(_) => 5,
            Refusal::NotHeavy(_) => 6,
            Refusal::NoShare(_) => 7,
            Refusal::NoFit => 8,
            Refusal::ShortBuffer => 9,
            Refusal::NotSound => 10,
            Refusal::UnknownTask => 11,
            Refusal::LowInCritical(_) => 12,
            Refusal::TooEarly(_) => 13,
            Refusal::WrongCount => 14,
            Refusal::NotRunning(_) => 15,
            Refusal::WrongLength => 16,
            Refusal::BadText => 17,
            Refusal::BadGraph => 18,
            Refusal::FigureOutside => 19,
        }
    }

    /// S9: the task at fault, where it names one.
    pub fn task(self) -> Option<u8>
        ensures { result ≡ task self }
    {
        match self {
            Refusal::BadPlace(i)
            | Refusal::BadRecord(i)
            | Refusal::BadFigure(i)
            | Refusal::BadMask(i)
            | Refusal::NotHeavy(i)
            | Refusal::NoShare(i)
            | Refusal::LowInCritical(i)
            | Refusal::TooEarly(i)
            | Refusal::NotRunning(i) => Some(i),
            _ => None,
        }
    }
}

/// The words of S9, behind the task at fault where it names one.
impl fmt::Display for Refusal {
    fn fmt<W: fmt::Write>(&self, f: &mut fmt::Formatter<W>) -> fmt::Result {
        if let Some(i) = self.task() {
            write!(f, "task {i}: ")?;
        }
        f.write_str(match self {
            Refusal::BadHeader => {
                "the sheet has fewer than two bytes, M or n is out of its range, or the directory does not end within the sheet"
            }
            Refusal::BadPlace(_) => {
                "the record's offset is not where it has to begin, or the last record does not end with the sheet"
            }
            Refusal::BadRecord(_) => "the level, the number of nodes or the length is not lawful",
            Refusal::BadFigure(_) => "a rule for the figures does not hold",
            Refusal::BadMask(_) => "a mask names a node that is no lower than its own",
            Refusal::NotHeavy(_) => "the task is not heavy: CO is at most D",
            Refusal::NoShare(_) => "the task has no share, or no pair within M passes for it",
            Refusal::NoFit => "no choice fits",
            Refusal::ShortBuffer => "the plan's buffer has fewer than 9n bytes",
            Refusal::NotSound => "the state is not sound",
            Refusal::UnknownTask => "there is no task of this number: it is n or more",
            Refusal::LowInCritical(_) => "the task is low and not kept, and the mode is critical",
            Refusal::TooEarly(_) => "the task's job is alive, or its age is below D",
            Refusal::WrongCount => "there are not just n reports",
            Refusal::NotRunning(_) => "a report names a node that is not running",
            Refusal::WrongLength => "the board's buffer has not just 2M bytes",
            Refusal::BadText => {
                "the text is not of the format, the level or the percentage is not lawful, or the buffer has fewer than 12 + 4k bytes"
            }
            Refusal::BadGraph => {
                "there are more than 32 nodes, or none, or a predecessor is not below its own entry"
            }
            Refusal::FigureOutside => {
                "D, a sum of times or a longest chain is not in 1 to 10000"
            }
        })
    }
}

impl Error for Refusal {}

/// S3.1: what stands for the task where an answer names none.
/// Each format writes it in its own way, a word, bytes or a line, so that no function makes the two numbers for all.
pub const NO_TASK: u8 = 255;

/// S13.4: the word of a number and a task, for every pair of bytes.
pub fn word_of(number: u8, task: u8) -> u32
    ensures { result ≡ number + 256 * task }
{
    u32::from(number) + 256 * u32::from(task)
}

/// S13.4: an answer in one word, its number and 256 times its task.
#[tactic(auto, unfolding(crate::specs::Refusal::answer_word))]
pub fn answer_word(answer: Result<(), Refusal>) -> u32
    ensures { result ≡ answer_word answer }
{
    let (number, task) = match answer {
        Ok(()) => (0, None),
        Err(refusal) => (refusal.number(), refusal.task()),
    };
    word_of(number, task.unwrap_or(NO_TASK))
}
