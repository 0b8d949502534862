//! S6.3: lines of numbers.
//! By a loop and no format, since a line has as many numbers as it is given.
ghost use Rattle.std.specs.Prelude.{◌≡◌};
ghost use Rattle.plan_text.specs.means.Growth.{with_bytes};
ghost use Rattle.plan_text.specs.Lines.{line, mark};

use crate::text::Text;

/// S6.3: the byte before the numbers that are left of a line: a blank, or a newline where none is left.
fn mark_before(left: usize) -> u8
    ensures { result ≡ mark left }
{
    if left == 0 { b'\n' } else { b' ' }
}

/// Adds a line of these numbers to a text.
#[tactic(auto, using(crate::proofs::Growths::line_step))]
pub fn push_line(text: &mut Text, numbers: &[u32])
    ensures { text.new ≡ with_bytes text.old (line numbers.now) }
{
    for (i, n) in numbers.iter().enumerate() {
        text.push_number(*n);
        text.push(mark_before(numbers.len() - 1 - i));
    }
}
