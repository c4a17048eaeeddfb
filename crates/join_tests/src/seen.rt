// The lookups of a Join's frame: four bytes each from byte 4 on, as many as its byte 3 says. One pass collects what the tests ask.
ghost use Rattle.std.specs.Prelude.{◌≡◌, ◌<◌, get_or};
ghost use Rattle.records.specs.Lookups.{operand_at, lookup_at, lookups_of};
ghost use Rattle.join_tests.specs.Arrays.{bound_in};
ghost use Rattle.join_tests.specs.Lookups.{op_seen, repr_seen, operand_seen, position_seen, lookup_seen, none_seen, seen_in};

use super::arrays::{is_bound, is_given};
use hexadecimal::byte_at;

// What the lookups ask.
#[derive(Clone, Copy)]
pub struct Seen {
    // how many are ByOp, and the operator of the first
    pub ops: usize,
    pub op: u8,
    // whether all that is read is bound, and all globals have classes
    pub read: bool,
    pub given: bool,
    // whether the target is unbound, or a ByRepr names it
    pub free: bool,
    // the largest position of a ByChildPos and 3, or 0
    pub reach: usize,
}

// Before the first lookup.
fn none_seen(target: u8, marks: &[u16]) -> Seen
    ensures { result ≡ none_seen (bound_in marks.now) target }
{
    Seen {
        ops: 0,
        op: 0,
        read: true,
        given: true,
        free: !is_bound(marks, target),
        reach: 0,
    }
}

fn op_seen(mut s: Seen, op: u8) -> Seen
    requires { s.ops < 65536 }
    ensures { result ≡ op_seen s op }
{
    if s.ops == 0 {
        s.op = op;
    }
    s.ops += 1;
    s
}

fn repr_seen(s: Seen, u: u8, target: u8, marks: &[u16]) -> Seen
    ensures { result ≡ repr_seen (bound_in marks.now) target s u }
{
    Seen {
        read: s.read & is_bound(marks, u),
        free: s.free | (u == target),
        ..s
    }
}

// The operand at byte i.
fn operand_seen(s: Seen, frame: &[u8], i: usize, marks: &[u16], globals: &[u16]) -> Seen
    requires { i < 65536 }
    ensures { result ≡ operand_seen (bound_in marks.now) globals.now s (operand_at frame.now i) }
{
    let index = byte_at(frame, i + 1);
    if byte_at(frame, i) == 0 {
        Seen {
            read: s.read & is_bound(marks, index),
            ..s
        }
    } else {
        Seen {
            given: s.given & is_given(globals, index),
            ..s
        }
    }
}

fn position_seen(s: Seen, position: u8) -> Seen
    ensures { result ≡ position_seen s position }
{
    Seen {
        reach: s.reach.max(usize::from(position) + 3),
        ..s
    }
}

// The lookup at byte i.
fn lookup_seen(s: Seen, frame: &[u8], i: usize, target: u8, marks: &[u16], globals: &[u16]) -> Seen
    requires i_bound { i < 65000 }
    requires ops_bound { s.ops < 65536 }
    ensures { result ≡ lookup_seen (bound_in marks.now) globals.now target s (lookup_at frame.now i) }
{
    match byte_at(frame, i) {
        0 => op_seen(s, byte_at(frame, i + 1)),
        1 => {
            let t = operand_seen(s, frame, i + 1, marks, globals);
            position_seen(t, byte_at(frame, i + 3))
        }
        2 => repr_seen(s, byte_at(frame, i + 1), target, marks),
        _ => operand_seen(s, frame, i + 1, marks, globals),
    }
}

// All lookups of a Join.
pub fn lookups_seen(frame: &[u8], marks: &[u16], globals: &[u16]) -> Seen
    ensures { result ≡ seen_in (bound_in marks.now) globals.now (get_or frame.now 1 0) (lookups_of frame.now) }
{
    let target = byte_at(frame, 1);
    let n = usize::from(byte_at(frame, 3));
    let mut s = none_seen(target, marks);
    for k in 0..n {
        s = lookup_seen(s, frame, 4 + 4 * k, target, marks, globals);
    }
    s
}
