//! Refusals 3 to 6: one task's record.
ghost use Rattle.std.specs.Prelude.{◌≡◌, ◌<◌, ◌≤◌, ◌+◌, Ok};
ghost use Rattle.sheet.specs.Refusal.{◌or_else◌};
ghost use Rattle.sheet.specs.Format.{offset_of, level_at, nodes_at, figure_at, figures_at, masks_at, task_at};
ghost use Rattle.sheet.specs.Rules.{shape_lawful};
ghost use Rattle.sheet.specs.Level.{bytes_before_masks};
ghost use Rattle.reader.specs.Reading.{record_answer};

use crate::directory::{length_of, offset_of};
use basics::numbers::{byte_at, u16_at, u32_at, u32s_at};
use sheet::level::{bytes_before_masks, is_wide};
use sheet::refusal::Refusal;
use sheet::rules::shape_lawful;
use sheet::task::{Budget, Figures, Task};

/// S2.6: the record that begins at a place of a sheet. A place fits two bytes (S2.3).
#[derive(Clone, Copy)]
struct Record<'a> {
    sheet: &'a [u8],
    at: usize,
    ghost in_two_bytes: { at < 65536 },
}

impl<'a> Record<'a> {
    /// The level.
    #[tactic(auto, unfolding(sheet::specs::Format::level_at))]
    fn level(&self) -> u8
        ensures { result ≡ level_at self.now.sheet.now self.now.at }
    {
        byte_at(self.sheet, self.at)
    }

    /// The number of nodes, k.
    #[tactic(auto, unfolding(sheet::specs::Format::nodes_at))]
    fn nodes(&self) -> u8
        ensures { result ≡ nodes_at self.now.sheet.now self.now.at }
    {
        byte_at(self.sheet, self.at + 1)
    }

    /// S2.7, S9.3: whether the record's shape is lawful. Where it is too short for a level and a number of nodes it
    /// is not read.
    #[tactic(auto, using(crate::proofs::Records::short_shape))]
    fn is_shaped(&self, bytes: u32) -> bool
        ensures { result
            ≡ shape_lawful (level_at self.now.sheet.now self.now.at)
            (nodes_at self.now.sheet.now self.now.at) bytes }
    {
        if bytes < 2 {
            return false;
        }
        shape_lawful(self.level(), self.nodes(), bytes)
    }

    /// S2.6: figure i of the five, in the wide form or in the other.
    /// The form is a flag, as `is_wide` answers it: it is asked once for the five, and two names would say no more.
    #[tactic(auto, unfolding(sheet::specs::Format::figure_at))]
    fn figure(&self, wide: bool, i: usize) -> u32
        requires { i < 5 }
        ensures { result ≡ figure_at wide self.now.sheet.now self.now.at i }
    {
        if wide {
            u32_at(self.sheet, self.at + 2 + 4 * i)
        } else {
            u16_at(self.sheet, self.at + 2 + 2 * i)
        }
    }

    /// S2.6: the five figures.
    #[tactic(auto, unfolding(sheet::specs::Format::figures_at))]
    fn figures(&self) -> Figures
        ensures { result ≡ figures_at self.now.sheet.now self.now.at }
    {
        let wide = is_wide(self.level());
        Figures {
            deadline: self.figure(wide, 0),
            nominal: Budget {
                work: self.figure(wide, 1),
                span: self.figure(wide, 3),
            },
            overload: Budget {
                work: self.figure(wide, 2),
                span: self.figure(wide, 4),
            },
        }
    }

    /// S2.6: the masks of the nodes, and zeros behind them.
    #[tactic(auto, unfolding(sheet::specs::Format::masks_at))]
    fn masks(&self) -> [u32; 32]
        requires { nodes_at self.now.sheet.now self.now.at ≤ 32 }
        ensures { result
            ≡ masks_at self.now.sheet.now
            (self.now.at + bytes_before_masks (level_at self.now.sheet.now self.now.at))
            (nodes_at self.now.sheet.now self.now.at) }
    {
        // `u32` has no `From` to `usize`.
        let first = self.at + bytes_before_masks(self.level()) as usize;
        u32s_at(self.sheet, first, usize::from(self.nodes()))
    }

    /// S2.6: the task of the record.
    #[tactic(auto, unfolding(sheet::specs::Format::task_at))]
    fn task(&self) -> Task
        requires { nodes_at self.now.sheet.now self.now.at ≤ 32 }
        ensures { result ≡ task_at self.now.sheet.now self.now.at }
    {
        Task {
            level: self.level(),
            nodes: self.nodes(),
            figures: self.figures(),
            predecessors: self.masks(),
        }
    }
}

/// S3.3: refusal 3 of task i, then 4 to 6 of what its record says.
pub fn read_record(s: &[u8], i: u8) -> Result<Task, Refusal>
    requires { i < 16 }
    ensures { result ≡ record_answer s.now i or_else Ok (task_at s.now (offset_of s.now i)) }
{
    let record = Record {
        sheet: s,
        // `u32` has no `From` to `usize`.
        at: offset_of(s, i) as usize,
    };
    if !record.is_shaped(length_of(s, i)) {
        return Err(Refusal::BadRecord(i));
    }
    let task = record.task();
    task.answer(i)?;
    Ok(task)
}
