//! S2.6: the record of a task of level 0 or 1, written to the front of a lent buffer.
ghost use Rattle.std.specs.Prelude.{◌≡◌, ◌+◌, ◌*◌, ◌≤◌, length};
ghost use Rattle.std.proofs.lemmas.List.Edits.{sets};
ghost use Rattle.sheet.specs.Encoding.{masks_bytes, record_bytes};

use basics::numbers::{put_u16, put_u32};
use sheet::task::Task;

/// The masks of k nodes, behind the 12 bytes before them.
/// The masks are a task's: 32 and k, as it has them.
fn put_masks(out: &mut [u8], k: usize, masks: &[u32; 32])
    requires { (k ≤ 32) × (12 + 4 * k ≤ length out.old) }
    ensures { out.new ≡ sets out.old 12 (masks_bytes k masks.now) }
{
    for (v, mask) in masks[..k].iter().enumerate() {
        put_u32(out, 12 + 4 * v, *mask);
    }
}

/// S2.6: the whole record.
/// Field by field: S2.6 fixes the place and the size of each.
pub fn write_record(out: &mut [u8], t: &Task)
    requires { (t.now.nodes ≤ 32) × (12 + 4 * t.now.nodes ≤ length out.old) × (t.now.level ≤ 1) }
    ensures { out.new ≡ sets out.old 0 (record_bytes t.now) }
{
    let figures = t.figures;
    out[0] = t.level;
    out[1] = t.nodes;
    put_u16(out, 2, figures.deadline);
    put_u16(out, 4, figures.nominal.work);
    put_u16(out, 6, figures.overload.work);
    put_u16(out, 8, figures.nominal.span);
    put_u16(out, 10, figures.overload.span);
    put_masks(out, usize::from(t.nodes), &t.predecessors);
}
