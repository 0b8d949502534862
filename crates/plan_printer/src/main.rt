//! The plan printer. S6.4: the sheet is the first 4,096 bytes of standard input, or all of them where there are fewer.
//! What is printed is S6.1 to S6.3. Its exit status is always 0: what it can't do it says on standard error.
#![tactic(auto)]

use input::{has_word, read_full};
use plan_text::printed::write_plan;
use std::io::Read;

/// S6.4: the bytes that are taken.
const TAKEN: usize = 4096;

/// Reads the sheet and prints its plan.
/// The buffers are fixed, since there is no heap: a plan's text has at most 480 bytes.
fn print_plan<R: Read>(rt: &(impl Print + Eprint), input: &mut R) {
    let mut sheet = [0; TAKEN];
    let n = read_full(input, &mut sheet);
    let mut text = [0; 480];
    let len = write_plan(&sheet[..n], &mut text);
    if rt.write_all(&text[..len]).is_err() {
        let _ = eprintln!(rt; "plan_printer: the plan could not be written");
    }
}

/// Prints the plan, or says that no argument is read.
fn main(rt: HostRuntime) {
    if has_word(&rt, 1) {
        let _ = eprintln!(rt;
            "plan_printer: no argument is read; the sheet comes on standard input"
        );
        return;
    }
    print_plan(&rt, &mut rt.stdin());
}
