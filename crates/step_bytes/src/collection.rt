// The fixed part of the step behind the Join of a collection: 47 ExpandA, 48 DecomposeAC, 49 DecomposeACI.
ghost use Rattle.std.specs.Prelude.{◌<◌, get_or};
ghost use Rattle.step_bytes.specs.Begun.{Opens};

use hexadecimal::byte_at;

// By the kind, 07 to 0e.
pub fn expand_part(frame: &[u8]) -> [u8; 6]
    requires bound { 6 < get_or frame.now 0 0 }
    requires frame_bound { get_or frame.now 0 0 < 15 }
    ensures { Opens frame.now result }
{
    let node = byte_at(frame, 1);
    let x = byte_at(frame, 3);
    let y = byte_at(frame, 4);
    match byte_at(frame, 0) {
        7 => [0x47, node, 0, 0, 0, x],
        8 => [0x47, node, 1, x, 0, y],
        9 => [0x47, node, 2, 0, x, y],
        10 => [0x47, node, 3, x, y, byte_at(frame, 5)],
        11 => [0x48, node, 0, 0, 0, x],
        12 => [0x48, node, 0, 1, x, y],
        13 => [0x49, node, 0, 0, x, 0],
        _ => [0x49, node, 1, x, y, 0],
    }
}
