//! The reader: what a list of bytes says as a sheet (S2), and refusals 1 to 6.
#![tactic(auto)]

ghost use Rattle.std.specs.Prelude.{◌≡◌, ◌≤◌, Ok};
ghost use Rattle.sheet.specs.Refusal.{number_of, task_of, first_over, ◌or_else◌, Says};
ghost use Rattle.sheet.specs.Format.{count_of, task_set_of};
ghost use Rattle.reader.specs.Reading.{record_answer, read_of};

use crate::directory::{header_lawful, places_answer};
use crate::record::read_record;
use basics::numbers::byte_at;
use sheet::refusal::Refusal;
use sheet::task::{TaskSet, zero_task};

mod directory;
mod record;

/// S3.3: refusals 3 to 6, one task after the other, of a sheet for which neither 1 nor 2 holds.
fn read_tasks(s: &[u8], n: u8) -> Result<TaskSet, Refusal>
    requires { (n ≡ count_of s.now) × (n ≤ 16) }
    ensures { result ≡ first_over (record_answer s.now) 0 n or_else Ok (task_set_of s.now) }
{
    let mut tasks = [zero_task(); 16];
    for i in 0..n {
        tasks[usize::from(i)] = read_record(s, i)?;
    }
    Ok(TaskSet {
        processors: byte_at(s, 0),
        count: n,
        tasks,
    })
}

/// Reads a sheet: any list of bytes is accepted, or refused for the first of 1 to 6 that holds (S3.3).
pub fn read(sheet: &[u8]) -> Result<TaskSet, Refusal>
    ensures whole { result ≡ read_of sheet.now }
    ensures says { Says result (number_of (read_of sheet.now)) (task_of (read_of sheet.now)) }
{
    if !header_lawful(sheet) {
        return Err(Refusal::BadHeader);
    }
    let n = byte_at(sheet, 1);
    places_answer(sheet, n)?;
    read_tasks(sheet, n)
}
