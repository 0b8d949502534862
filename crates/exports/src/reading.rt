//! The reader of sheets (S2).
ghost use Rattle.std.specs.Prelude.{◌≡◌};
ghost use Rattle.sheet.specs.Format.{zero_task_set};
ghost use Rattle.sheet.specs.Refusal.{answer_word};
ghost use Rattle.reader.specs.Reading.{set_of, read_of, read_answer};
ghost use Rattle.exports.specs.Fields.{field_of};

use crate::fields::field_of;
use sheet::refusal::answer_word;
use sheet::task::TaskSet;

/// S3.5: what stands for the task set of a sheet that is refused.
#[tactic(auto, using(sheet::proofs::Zeros::default_is_zero_task_set))]
fn zero_task_set() -> TaskSet
    ensures { result ≡ zero_task_set }
{
    TaskSet::default()
}

/// S3.1: the reader's answer: its number, and 256 times its task.
#[unsafe(no_mangle)]
pub extern "C" fn dibwunek_read(sheet: &[u8]) -> u32
    ensures { result ≡ answer_word (read_answer sheet.now) }
{
    answer_word(reader::read(sheet).and(Ok(())))
}

/// A field of the task set that the reader returns.
#[unsafe(no_mangle)]
pub extern "C" fn dibwunek_read_field(sheet: &[u8], task: usize, field: usize) -> u32
    ensures { result ≡ field_of (set_of (read_of sheet.now)) task field }
{
    let set = reader::read(sheet).unwrap_or(zero_task_set());
    field_of(&set, task, field)
}
