//! S2.6: the fields of a task set by their numbers, which are of the C interface for the tests.
ghost use Rattle.std.specs.Prelude.{◌≡◌, get_or};
ghost use Rattle.exports.specs.Fields.{task_fields, sheet_fields, field_of};

use sheet::task::{Task, TaskSet};

/// A field of a task: the level, k, five figures, and the masks.
#[tactic(auto, using(std::proofs::lemmas::Option::gets), unfolding(crate::specs::Fields::task_fields))]
fn task_field(t: &Task, field: usize) -> u32
    ensures { result ≡ get_or (task_fields t.now) field 0 }
{
    match field {
        0 => u32::from(t.level),
        1 => u32::from(t.nodes),
        2 => t.figures.deadline,
        3 => t.figures.nominal.work,
        4 => t.figures.nominal.span,
        5 => t.figures.overload.work,
        6 => t.figures.overload.span,
        _ => t.predecessors.get(field - 7).copied().unwrap_or(0),
    }
}

/// A field of the whole sheet: M and n.
#[tactic(auto, unfolding(crate::specs::Fields::sheet_fields))]
fn sheet_field(set: &TaskSet, field: usize) -> u32
    ensures { result ≡ get_or (sheet_fields set.now) field 0 }
{
    match field {
        0 => u32::from(set.processors),
        1 => u32::from(set.count),
        _ => 0,
    }
}

/// A field of a task; of the whole sheet for task 16; 0 where there is none.
#[tactic(auto, unfolding(crate::specs::Fields::field_of, sheet::specs::Format::task_in))]
pub fn field_of(set: &TaskSet, task: usize, field: usize) -> u32
    ensures { result ≡ field_of set.now task field }
{
    match set.tasks.get(task) {
        Some(t) => task_field(t, field),
        None if task == 16 => sheet_field(set, field),
        None => 0,
    }
}
