//! S13.3: Plan.
ghost use Rattle.std.specs.Prelude.{◌≡◌};
ghost use Rattle.exports.specs.Calls.{plan_call};

use sheet::refusal::answer_word;

/// S5.5: the plan's bytes go to the front of the buffer.
#[tactic(auto, unfolding(crate::specs::Calls::plan_call))]
#[unsafe(no_mangle)]
pub extern "C" fn dibwunek_plan(sheet: &[u8], buffer: &mut [u8]) -> u32
    ensures answered { result ≡ (plan_call sheet.now buffer.old).word }
    ensures written { buffer.new ≡ (plan_call sheet.now buffer.old).left }
{
    answer_word(planner::plan::plan(sheet, buffer))
}
