// The lookups of a Join by the operands that are bound.
ghost use Rattle.std.specs.Prelude.{◌≡◌, ◌+◌, ◌<◌, ◌≤◌, length};
ghost use mathlib.Core.List.{flat_map};
ghost use Rattle.kinds.specs.Kinds.{items_of};
ghost use Rattle.frames.specs.Frames.{kind_of};
ghost use Rattle.output.specs.StepFrames.{lookup_bytes};
ghost use Rattle.output.specs.Written.{PutsBytes};
ghost use Rattle.join_lookups.specs.OperandLookups.{operand_lookups};

use binding::operands::pv_is_bound;
use frames::frame::items_of;
use hexadecimal::byte_at;
use kinds::table::{fixed_length, item_width};
use output::bytes::put_first;
use step_bytes::operand::lookup_at;

// How many operands are bound.
pub fn count_bound(frame: &[u8], bound: &[bool]) -> u8
    ensures { (result ≡ length (operand_lookups bound.now frame.now)) × (result ≤ items_of (kind_of frame.now) frame.now) }
{
    let kind = byte_at(frame, 0);
    let i = fixed_length(kind);
    let w = item_width(kind);
    let n = items_of(frame);
    let mut count: u8 = 0;
    for k in 0..n {
        if pv_is_bound(frame, i + w * k, bound) {
            count += 1;
        }
    }
    count
}

// The lookups by the operands that are bound, each as wide as the table of kinds has the items of a Join.
pub fn put_lookups(frame: &[u8], bound: &[bool], out: &mut [u8], from: usize) -> usize
    requires { from < 0x2800_0000 }
    ensures upper_bound { result ≤ from + 2048 }
    ensures puts_bytes { PutsBytes out.old from (flat_map lookup_bytes (operand_lookups bound.now frame.now)) out.new result }
{
    let kind = byte_at(frame, 0);
    let i = fixed_length(kind);
    let w = item_width(kind);
    let n = items_of(frame);
    let size = item_width(0x40);
    let mut at = from;
    for k in 0..n {
        let j = i + w * k;
        if pv_is_bound(frame, j, bound) {
            let lookup = lookup_at(frame, j, kind == 1, k as u8);
            at = put_first(out, at, &lookup, size);
        }
    }
    at
}
