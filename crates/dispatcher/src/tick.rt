//! S8.5 to S8.7, S8.9: Tick.
ghost use Rattle.std.specs.Prelude.{◌≡◌, ◌≤◌, cond, IfOk, IfErr};
ghost use Rattle.std.specs.List.{list_any};
ghost use Rattle.model.specs.Row.{has_high_job};
ghost use Rattle.model.specs.Step.{lowest_late, turning};
ghost use Rattle.dispatcher.specs.Holds.{model_of, with_model};
ghost use Rattle.dispatcher.specs.Sound.{is_sound};
ghost use Rattle.dispatcher.specs.Answers.{tick_answer, tick_number, tick_task, TickSays};
ghost use Rattle.dispatcher.specs.Calls.{tick_of};
ghost use Rattle.dispatcher.specs.means.Passed.{HasPassed, HasStopped};

use crate::state::{Answered, State};
use entries::pass::Pass;
use nodes::NodeSet;
use sheet::refusal::Refusal;

/// S8.7: a tick ran, it switched for a task, it returned, or it was refused.
/// No `Result`: the buyer asks for an enum in a struct beside the state.
#[derive(Clone, Copy, Debug, PartialEq, Eq)]
pub enum TickAnswer {
    Ran,
    Switched(u8),
    Returned,
    Refused(Refusal),
}

/// A tick's answer beside the state that it returns.
pub type Ticked = Answered<TickAnswer>;

/// S9.10, S9.14: the refusal where the reports are not one for each task. Soundness comes first.
fn miscounted(state: &State) -> Refusal
    ensures { result ≡ cond (is_sound state.now) Refusal.WrongCount Refusal.NotSound }
{
    if state.is_sound() {
        Refusal::WrongCount
    } else {
        Refusal::NotSound
    }
}

/// S8.9: the answer of a tick in critical mode, after which a high job is alive or none is.
/// No `From`: that a bool means these two answers holds here alone.
fn critical_answer(high: bool) -> TickAnswer
    ensures { result ≡ cond high TickAnswer.Ran TickAnswer.Returned }
{
    if high {
        TickAnswer::Ran
    } else {
        TickAnswer::Returned
    }
}

/// S8.5: each task's part of a tick, in one pass: soundness, its report, and what it becomes. Where the tick is refused
/// the state may be left half way: the caller has it as it was.
/// The reports are a list of the caller's (S8.5), so they stand beside the entries.
fn pass_over(state: &mut State, reports: &[u32]) -> Result<Pass, Refusal>
    ensures refused { IfErr result
        (λ r. tick_of state.old reports.now ≡ record { state = state.old; answer = TickAnswer.Refused r }) }
    ensures stopped { IfErr result (λ r. HasStopped state.old reports.now r state.new) }
    ensures passed { IfOk result (λ p. HasPassed state.old reports.now p state.new) }
{
    if reports.len() != usize::from(state.count) {
        return Err(miscounted(state));
    }
    if !state.is_in_range() {
        return Err(Refusal::NotSound);
    }
    let processors = state.processors;
    let critical = state.critical;
    let mut pass = Pass::default();
    // Of entries by `iter_mut` beside their reports, by `zip`, no proof knows the values.
    for i in 0..state.count {
        let e = &mut state.entries[usize::from(i)];
        if !e.is_sound() {
            return Err(Refusal::NotSound);
        }
        let report = reports[usize::from(i)];
        let wrong = !NodeSet::from_bits(report).is_subset(e.running(critical));
        e.tick(report);
        pass.add(i, e.share, wrong, e.is_late(), e.has_high_job());
    }
    if !pass.fits(processors) {
        return Err(Refusal::NotSound);
    }
    if let Some(task) = pass.wrong {
        return Err(Refusal::NotRunning(task));
    }
    Ok(pass)
}

/// S8.6, S8.9: what becomes of the mode after the tasks' parts of a tick, by the lowest late task and whether a high
/// job is alive. S8.6 is of the typical mode and S8.9 of the critical one, so that a test of the mode stands here.
fn turn(state: &mut State, late: Option<u8>, high: bool) -> TickAnswer
    requires few { state.old.count ≤ 16 }
    requires lowest { late ≡ lowest_late 0 (model_of state.old).rows }
    requires alive { high ≡ list_any has_high_job (model_of state.old).rows }
    ensures answered { result ≡ tick_answer (turning state.old.critical (model_of state.old).rows).answer }
    ensures turned { state.new ≡ with_model state.old
        (turning state.old.critical (model_of state.old).rows).model }
{
    if state.critical {
        state.critical = high;
        return critical_answer(high);
    }
    match late {
        None => TickAnswer::Ran,
        Some(task) => {
            state.switch();
            TickAnswer::Switched(task)
        }
    }
}

/// S8.5 to S8.7, S8.9: the reported nodes end, the ages grow, and the mode may turn. S3.4: a refused call hands the
/// state back.
/// The arms are as `release`'s: one frame for both calls would take closures and read no plainer.
pub fn tick(state: State, reports: &[u32]) -> Ticked
    ensures whole { result ≡ tick_of state reports.now }
    ensures says { TickSays result.answer
        (tick_number (tick_of state reports.now).answer)
        (tick_task (tick_of state reports.now).answer) }
{
    let mut next = state;
    match pass_over(&mut next, reports) {
        Err(refusal) => Ticked {
            state,
            answer: TickAnswer::Refused(refusal),
        },
        Ok(pass) => {
            let answer = turn(&mut next, pass.late, pass.high);
            Ticked {
                state: next,
                answer,
            }
        }
    }
}
