// The atoms that were lowered since emitters were last recorded.
ghost use Rattle.std.specs.Prelude.{◌≡◌, ◌≤◌, length, take};
ghost use Rattle.binding.specs.Bound.{bound_most};
ghost use Rattle.recording.specs.Changed.{changed_from};

use binding::sets::is_set;

// The numbers of those of the first n atoms whose use has changed, from the lowest on. How many they are.
pub fn changed(before: &[bool], used: &[bool], n: usize, list: &mut [u8]) -> usize
    requires n_le_bound_most { n ≤ bound_most }
    requires n_in_bounds { n ≤ length list.old }
    ensures { take result list.new ≡ changed_from before.now used.now 0 n }
{
    let mut c: usize = 0;
    for i in 0..n {
        let k = i as u8;
        if is_set(used, k) == is_set(before, k) {
            continue;
        }
        list[c] = k;
        c += 1;
    }
    c
}
