// The bits of the costs of a round, for whoever asks for them.
ghost use Rattle.std.specs.Prelude.{◌≡◌, ◌≤◌, length, get_or, take};
ghost use Rattle.model.specs.Choose.{pick};
ghost use Rattle.cost_bits.specs.CostBits.{no_cost};
ghost use Rattle.cost_bits.specs.ToldBits.{bits_in};

use super::bits::NO_COST;

// The bits of cost number i of the first n.
fn bits_at(costs: &[u64], n: usize, i: usize) -> u64
    requires { n ≤ length costs.now }
    ensures { result ≡ get_or (take n costs.now) i no_cost }
{
    costs[..n].get(i).copied().unwrap_or(NO_COST)
}

// The bits of the first n costs, as far as the array is long.
fn put_costs(costs: &[u64], n: usize, out: &mut [u64])
    requires { n ≤ length costs.now }
    ensures { out.new ≡ bits_in (take n costs.now) (length out.old) }
{
    for i in 0..out.len() {
        out[i] = bits_at(costs, n, i);
    }
}

// The bits of the first n costs where an atom was found, else of none.
pub fn put_round(found: bool, costs: &[u64], n: usize, out: &mut [u64])
    requires { n ≤ length costs.now }
    ensures { out.new ≡ bits_in (take (pick found n 0) costs.now) (length out.old) }
{
    let told = if found { n } else { 0 };
    put_costs(costs, told, out)
}
