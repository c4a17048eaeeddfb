// The emitters, a number for each variable: 0 where it has none, else its atom, site and position packed.
ghost use Rattle.std.specs.Prelude.{◌≡◌, true, map, ◌+◌, ◌*◌, ◌<◌, length};
ghost use Rattle.cost.specs.Atoms.{local_of};
ghost use Rattle.cost.specs.Premises.{numbers_below};
ghost use Rattle.cost.specs.Lookups.{operand_at};
ghost use Rattle.cost.specs.Emitters.{decode, from, emitter_of, set_emitter, set_operand, copy_emitter};

use hexadecimal::byte_at;

// The number of an emitter.
pub fn packed(atom: u8, site: u8, position: u8) -> u32
    requires { site < 4 }
    ensures { decode result ≡ from atom site position }
{
    1 + (u32::from(atom) * 4 + u32::from(site)) * 256 + u32::from(position)
}

// The variable v gets the emitter e, where it has none.
pub fn set_emitter(em: &mut [u32], v: u8, e: u32)
    requires { v < length em.old }
    ensures { map decode em.new ≡ set_emitter (map decode em.old) v (decode e) }
{
    let i = usize::from(v);
    if em[i] == 0 {
        em[i] = e;
    }
}

// The operand at byte i, where it is a local.
pub fn set_operand(em: &mut [u32], frame: &[u8], i: usize, e: u32)
    requires i_bound { i < 65536 }
    requires i_value { numbers_below (length em.old) (local_of (operand_at frame.now i)) ≡ true }
    ensures { map decode em.new ≡ set_operand (map decode em.old) (operand_at frame.now i) (decode e) }
{
    if byte_at(frame, i) == 0 {
        set_emitter(em, byte_at(frame, i + 1), e);
    }
}

// Whichever of two variables lacks an emitter takes the other's.
pub fn copy_emitter(em: &mut [u32], a: u8, b: u8)
    requires { (a < length em.old) × (b < length em.old) }
    ensures { map decode em.new ≡ copy_emitter (emitter_of (map decode em.old) a) (emitter_of (map decode em.old) b) (map decode em.old) a b }
{
    let i = usize::from(a);
    let j = usize::from(b);
    let x = em[i];
    let y = em[j];
    if x == 0 {
        em[i] = y;
    } else if y == 0 {
        em[j] = x;
    }
}
