// The bytes of a Join by its operator: with its node, or as the first of its lookups.
ghost use Rattle.std.specs.Prelude.{◌≡◌, [], ◌∷◌, get_or};
ghost use Rattle.output.specs.Atoms.{ByOp, ByRepr, Join};
ghost use Rattle.output.specs.StepFrames.{frame_of};

use hexadecimal::byte_at;

// Within the node's class: by the node, then by the operator.
pub fn class_join(frame: &[u8], k: u8) -> [u8; 12]
    ensures { result ≡ frame_of (Join (get_or frame.now 1 0) k (ByRepr (get_or frame.now 1 0) ∷ ByOp (get_or frame.now 2 0) ∷ [])) }
{
    let node = byte_at(frame, 1);
    [0x40, node, k, 2, 2, node, 0, 0, 0, byte_at(frame, 2), 0, 0]
}

// By the operator, the first of n lookups.
pub fn op_join(frame: &[u8], k: u8, n: u8) -> [u8; 8]
    ensures { result ≡ 0x40 ∷ get_or frame.now 1 0 ∷ k ∷ n ∷ 0 ∷ get_or frame.now 2 0 ∷ 0 ∷ 0 ∷ [] }
{
    let node = byte_at(frame, 1);
    [0x40, node, k, n, 0, byte_at(frame, 2), 0, 0]
}
