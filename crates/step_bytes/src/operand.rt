// What an operand of an atom's frame becomes: a lookup of the Join, or the step that reads a Plain's child.
ghost use Rattle.std.specs.Prelude.{◌≡◌, [], ◌∷◌, map, ◌+◌, ◌<◌, get_or};
ghost use Rattle.binding.specs.Lowering.{pv_is_bound, read_child};
ghost use Rattle.output.specs.Lookups.{operand_at};
ghost use Rattle.output.specs.StepFrames.{tag_of, index_of, lookup_bytes, frame_of};
ghost use Rattle.step_bytes.specs.Pieces.{lookup_for};
ghost use Rattle.step_bytes.specs.Begun.{Begins};

use binding::operands::pv_is_bound;
use hexadecimal::byte_at;

// The tag of the operand at byte j, as it is written.
pub fn tag_at(frame: &[u8], j: usize) -> u8
    ensures { result ≡ tag_of (operand_at frame.now j) }
{
    u8::from(byte_at(frame, j) != 0)
}

// The operand at byte j as an item of a step, with the byte behind it, which is its multiplicity where items have one.
pub fn item_at(frame: &[u8], j: usize) -> [u8; 3]
    requires { j < 65536 }
    ensures { result ≡ tag_of (operand_at frame.now j) ∷ index_of (operand_at frame.now j) ∷ get_or frame.now (j + 2) 0 ∷ [] }
{
    let tag = tag_at(frame, j);
    let index = byte_at(frame, j + 1);
    [tag, index, byte_at(frame, j + 2)]
}

// The lookup by the operand at byte j: of a Plain by its position, of a collection as an element.
pub fn lookup_at(frame: &[u8], j: usize, plain: bool, position: u8) -> [u8; 4]
    requires { j < 65536 }
    ensures { result ≡ lookup_bytes (lookup_for plain (operand_at frame.now j) position) }
{
    let tag = tag_at(frame, j);
    let index = byte_at(frame, j + 1);
    if plain {
        [1, tag, index, position]
    } else {
        [3, tag, index, 0]
    }
}

// The step of the child at byte j: checked where it is bound, else extracted.
pub fn child_at(frame: &[u8], j: usize, position: u8, bound: &[bool]) -> [u8; 5]
    requires { j < 65536 }
    ensures { Begins result (map frame_of (read_child (get_or frame.now 1 0) position (pv_is_bound bound.now (operand_at frame.now j)) (operand_at frame.now j))) }
{
    let node = byte_at(frame, 1);
    let index = byte_at(frame, j + 1);
    if pv_is_bound(frame, j, bound) {
        [0x42, node, position, tag_at(frame, j), index]
    } else {
        [0x41, index, node, position, 0]
    }
}
