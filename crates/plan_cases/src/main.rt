//! S11.11, S11.12: plans A and B on 8, 6, 5 and 3 processors, then A, B and E on 7. A line for each sheet: the answer's
//! number and task, and the plan's bytes where it is accepted.
#![tactic(auto)]

ghost use Rattle.std.specs.Prelude.{◌≡◌, ◌∷◌, take};
ghost use Rattle.sheet.specs.Refusal.{no_task};

use plan_text::line::push_line;
use plan_text::text::Text;
use planner::plan::plan;
use sheet::refusal::NO_TASK;
use std::io;

/// S2: M 8; two tasks, at 10 and 26, with 16 bytes each: A and B, a node each.
const TWO: [u8; 42] = [
    8, 2, 10, 0, 16, 0, 26, 0, 16, 0, 1, 1, 45, 0, 9, 0, 52, 0, 4, 0, 20, 0, 0, 0, 0, 0, 1, 1, 54,
    0, 11, 0, 80, 0, 4, 0, 42, 0, 0, 0, 0, 0,
];

/// S2: M 7; three tasks, at 14, 30 and 46, with 16 bytes each: A, B and E, a node each.
const THREE: [u8; 62] = [
    7, 3, 14, 0, 16, 0, 30, 0, 16, 0, 46, 0, 16, 0, 1, 1, 45, 0, 9, 0, 52, 0, 4, 0, 20, 0, 0, 0, 0,
    0, 1, 1, 54, 0, 11, 0, 80, 0, 4, 0, 42, 0, 0, 0, 0, 0, 0, 1, 18, 0, 66, 0, 66, 0, 6, 0, 6, 0,
    0, 0, 0, 0,
];

/// Prints a line of these numbers.
fn print_line(rt: &impl Print, numbers: &[u32]) -> io::Result<()> {
    let mut text = Text::new();
    push_line(&mut text, numbers);
    rt.write_all(text.as_bytes())
}

/// S3.1: 0 and 255, for an accepted plan of two tasks; then the plan's eighteen bytes.
fn accepted(plan: &[u8; 27]) -> [u32; 20]
    ensures { result ≡ 0 ∷ no_task ∷ take 18 plan.now }
{
    let mut numbers = [0; 20];
    numbers[1] = u32::from(NO_TASK);
    for (i, byte) in plan[..18].iter().enumerate() {
        numbers[i + 2] = u32::from(*byte);
    }
    numbers
}

/// Plans a sheet of at most three tasks and prints the answer, and the plan where it is one of two tasks.
/// The buffer is fixed, since there is no heap: nine bytes for each of three tasks.
fn print_case(rt: &impl Print, sheet: &[u8]) -> io::Result<()> {
    let mut buffer = [0; 27];
    match plan(sheet, &mut buffer) {
        Ok(()) => print_line(rt, &accepted(&buffer)),
        Err(refusal) => {
            let task = refusal.task().unwrap_or(NO_TASK);
            print_line(rt, &[u32::from(refusal.number()), u32::from(task)])
        },
    }
}

/// The five sheets, one after the other.
fn main(rt: HostRuntime) -> io::Result<()> {
    for processors in [8, 6, 5, 3] {
        let mut two = TWO;
        two[0] = processors;
        print_case(&rt, &two)?;
    }
    print_case(&rt, &THREE)
}
