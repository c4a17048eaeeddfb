// The memo of what was measured, with the values: a known key gives its value again.
ghost use Rattle.std.specs.Prelude.{Some};
ghost use Rattle.std.specs.Prelude.{◌<◌, ◌≤◌, length};
ghost use Rattle.query.specs.Sheet.{frames_in};
ghost use Rattle.query.specs.Given.{Given};
ghost use Rattle.memo_entries.specs.CostSampling.{after_estimate};
ghost use Rattle.memo_entries.specs.Memo.{tally_at};
ghost use Rattle.memo_entries.specs.Costs.{estimate as estimate_of};
ghost use Rattle.samples.specs.Remembering.{Samples, Remembers, Gives};

use measure::SamplerConfig;
use memo_entries::below::{Key, Sampling, counted, measure_key, pack_key};
use memo_entries::entry::{entry_of, fan_at, fan_value, measured_fan, place_of};

// A sampled fan-out, where there is one, and what is remembered behind it.
#[derive(Clone, Copy)]
pub struct Sample {
    pub fan: Option<f64>,
    pub tallies: Sampling,
}

// The value of a key; one that is not known is measured, remembered and counted.
pub fn estimate(
    sheet: &[u8],
    index: &[u16],
    cfg: SamplerConfig,
    x: Key,
    keys: &mut [u64],
    values: &mut [f64],
    s: Sampling,
) -> Sample
    requires samples { Samples (frames_in sheet.now) (Some cfg) }
    requires remembers { Remembers (frames_in sheet.now) (Some cfg) keys.old values.old s }
    requires s_in_bounds { length (after_estimate (frames_in sheet.now) cfg x (tally_at keys.old s)).memo ≤ length keys.old }
    requires given { Given sheet.now index.now }
    ensures { Gives (frames_in sheet.now) (Some cfg) keys.new values.new result (estimate_of (frames_in sheet.now) (Some cfg) x (tally_at keys.old s)) }
{
    let key = pack_key(x);
    let c = s.count;
    let i = place_of(keys, c, key);
    if i < c {
        let fan = fan_at(keys, values, i);
        return Sample { fan, tallies: s };
    }
    let m = measure_key(sheet, index, x, cfg);
    let fan = measured_fan(m);
    keys[c] = entry_of(key, fan);
    values[c] = fan_value(fan);
    let tallies = counted(s, m);
    Sample { fan, tallies }
}
