//! S13.7: Replay for programs in C and Rust, of the support line. It is an archive of its own, so that a controller's
//! has none of it.
#![tactic(auto)]

ghost use Rattle.std.specs.Prelude.{◌≡◌, length};
ghost use Rattle.guarantee.specs.Replay.{replayed_of, replay_over};
ghost use Rattle.replays.specs.Written.{bytes_written};

pub mod promise;

/// S12.2: the bytes of the run go to the front of the buffer. S13.7: where it is too short C is told 0.
#[unsafe(no_mangle)]
pub extern "C" fn dibwunek_replay(sheet: &[u8], calls: &[u8], out: &mut [u8]) -> usize
    ensures counted { result ≡ bytes_written (replayed_of sheet.now calls.now (length out.old)) }
    ensures written { out.new ≡ replay_over sheet.now calls.now out.old }
{
    guarantee::replay::replay(sheet, calls, out).unwrap_or(0)
}
