// The sample of a probe, by the emitter of the operand that it goes by.
ghost use Rattle.std.specs.Prelude.{None};
ghost use Rattle.std.specs.Prelude.{◌≡◌, map, ◌<◌, ◌≤◌, length, get_or};
ghost use Rattle.query.specs.Sheet.{frames_in};
ghost use Rattle.query.specs.Given.{Given};
ghost use Rattle.memo_entries.specs.Costs.{sampled as sampled_of};
ghost use Rattle.memo_entries.specs.Emitters.{decode};
ghost use Rattle.memo_entries.specs.Memo.{tally_at};
ghost use Rattle.query.specs.Lookups.{operand_at};
ghost use Rattle.samples.specs.Remembering.{number_key, Samples, Remembers, Gives};

use super::memo::{Sample, estimate};
use hexadecimal::byte_at;
use memo_entries::below::{Key, Sampling};

// A probe of a candidate atom: its operator, and the path and place of the key.
#[derive(Clone, Copy)]
pub struct Probe {
    pub op: u8,
    pub path: u8,
    pub place: u8,
}

// The number of a variable's emitter, 0 where it has none.
fn emitter_of(em: &[u32], v: u8) -> u32
    ensures { result ≡ get_or em.now v 0 }
{
    em.get(usize::from(v)).copied().unwrap_or(0)
}

// The key of a probe, for a variable with the emitter of number e.
fn key_of(e: u32, q: Probe) -> Key
    requires { 0 < e }
    ensures { result ≡ number_key e q.op q.path q.place }
{
    let c = e - 1;
    Key {
        emitter: (c / 1024 % 256) as u8,
        site: (c / 256 % 4) as u8,
        position: (c % 256) as u8,
        op: q.op,
        path: q.path,
        place: q.place,
    }
}

fn unsampled(s: Sampling) -> Sample
    ensures { result ≡ record { fan = None; tallies = s } }
{
    Sample {
        fan: None,
        tallies: s,
    }
}

// The sample of a probe by the operand at byte j: a global, or a variable without emitter, is not sampled.
pub fn sampled(
    sheet: &[u8],
    index: &[u16],
    frame: &[u8],
    j: usize,
    em: &[u32],
    q: Probe,
    keys: &mut [u64],
    values: &mut [f64],
    s: Sampling,
) -> Sample
    requires j_bound { j < 65536 }
    requires samples { Samples (frames_in sheet.now) s.how }
    requires remembers { Remembers (frames_in sheet.now) s.how keys.old values.old s }
    requires s_in_bounds { length (sampled_of (frames_in sheet.now) (map decode em.now) (operand_at frame.now j) q.op q.path q.place (tally_at keys.old s)).tally.memo ≤ length keys.old }
    requires given { Given sheet.now index.now }
    ensures { Gives (frames_in sheet.now) s.how keys.new values.new result (sampled_of (frames_in sheet.now) (map decode em.now) (operand_at frame.now j) q.op q.path q.place (tally_at keys.old s)) }
{
    if byte_at(frame, j) != 0 {
        return unsampled(s);
    }
    let e = emitter_of(em, byte_at(frame, j + 1));
    if e == 0 {
        return unsampled(s);
    }
    let Some(cfg) = s.how else {
        return unsampled(s);
    };
    let x = key_of(e, q);
    estimate(sheet, index, cfg, x, keys, values, s)
}
