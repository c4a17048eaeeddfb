// The costs of a round as bits, noted one at a time, and told as far as an array is long.
ghost use Rattle.std.specs.Prelude.{◌≡◌, ◌<◌};
ghost use Rattle.cost_bits.specs.CostBits.{noted};

// The bits of no cost.
pub const NO_COST: u64 = 0xffff_ffff_ffff_ffff;

// Notes the bits of atom number i's cost, where there is a place for them.
pub fn note_cost(costs: &mut [u64], i: usize, bits: u64)
    ensures { costs.new ≡ noted costs.old i bits }
{
    if i < costs.len() {
        costs[i] = bits;
    }
}
