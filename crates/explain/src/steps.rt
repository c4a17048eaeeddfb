// A frame of an accepted plan in words.
ghost use Rattle.std.specs.Prelude.{◌<◌};

use super::named::say_rows;
use super::words::{Operand, operand_at, say};
use frames::frame::items_of;
use hexadecimal::{byte_at, short_at, word_at};
use kinds::table::{fixed_length, item_width};

fn say_header(rt: &HostRuntime, frame: &[u8]) {
    say!(rt; "plan of {} variables, {} globals", byte_at(frame, 1), byte_at(frame, 2));
    say!(rt; " and {} literals: {} steps, ", byte_at(frame, 3), short_at(frame, 4));
    say!(rt; "{} tallied, {} rejected", short_at(frame, 6), short_at(frame, 8));
}

// A Join's lookup: ByOp, ByRepr, ByChildPos or ByContains.
fn say_lookup(rt: &HostRuntime, frame: &[u8], i: usize)
    requires { i < 65536 }
{
    match byte_at(frame, i) {
        0 => say!(rt; "op {:02x}", byte_at(frame, i + 1)),
        1 => say!(rt; "child {} is {}", byte_at(frame, i + 3), operand_at(frame, i + 1)),
        2 => say!(rt; "in class of v{}", byte_at(frame, i + 1)),
        _ => say!(rt; "contains {}", operand_at(frame, i + 1)),
    }
}

// An item: a lookup of a Join, an operand with its multiplicity, or an operand.
fn say_item(rt: &HostRuntime, frame: &[u8], width: usize, i: usize)
    requires { i < 65536 }
{
    match width {
        4 => say_lookup(rt, frame, i),
        3 => say!(rt; "{} times {:02x}", operand_at(frame, i), byte_at(frame, i + 2)),
        _ => say!(rt; "{}", operand_at(frame, i)),
    }
}

// The n items of a frame, each of that width, from byte i on, with a comma between them.
fn say_listed(rt: &HostRuntime, frame: &[u8], i: usize, width: usize, n: usize)
    requires i_bound { i < 256 }
    requires width_bound { width < 256 }
    requires n_bound { n < 256 }
{
    let mut at = i;
    for k in 0..n {
        if 0 < k {
            say!(rt; ", ");
        }
        say_item(rt, frame, width, at);
        at += width;
    }
}

fn say_items(rt: &HostRuntime, frame: &[u8]) {
    let kind = byte_at(frame, 0);
    let first = fixed_length(kind);
    let width = item_width(kind);
    say_listed(rt, frame, first, width, items_of(frame));
}

fn say_join(rt: &HostRuntime, frame: &[u8], named: Option<u64>) {
    let atom = byte_at(frame, 2);
    say!(rt; "Join v{} of atom {atom} ", byte_at(frame, 1));
    say_items(rt, frame);
    say_rows(rt, named, atom);
}

fn say_extract_child(rt: &HostRuntime, frame: &[u8]) {
    say!(rt; "ExtractChild v{} from v{}", byte_at(frame, 1), byte_at(frame, 2));
    say!(rt; ", child {}", byte_at(frame, 3));
}

fn say_check_child(rt: &HostRuntime, frame: &[u8]) {
    say!(rt; "CheckChildEq v{}, child {}", byte_at(frame, 1), byte_at(frame, 2));
    say!(rt; " is {}", operand_at(frame, 3));
}

// A step over a variable and another operand.
fn say_pair(rt: &HostRuntime, step: &str, frame: &[u8], between: &str, other: Operand) {
    say!(rt; "{step} v{} {between} {other}", byte_at(frame, 1));
}

fn say_handle(rt: &HostRuntime, present: bool, name: &str, handle: u8) {
    if present {
        say!(rt; " {name} {handle:02x}");
    }
}

fn say_expand(rt: &HostRuntime, frame: &[u8]) {
    say!(rt; "ExpandA v{}", byte_at(frame, 1));
    let flags = byte_at(frame, 2);
    say_handle(rt, flags % 2 == 1, "pre", byte_at(frame, 3));
    say_handle(rt, 2 <= flags, "suf", byte_at(frame, 4));
    say!(rt; " into ");
    say_items(rt, frame);
}

// The rest of a collection, where the flag has it, and the items.
fn say_rest(rt: &HostRuntime, flag: u8, rest: u8, frame: &[u8]) {
    say_handle(rt, flag == 1, "rest", rest);
    say!(rt; " into ");
    say_items(rt, frame);
}

fn say_decompose_ac(rt: &HostRuntime, frame: &[u8]) {
    say!(rt; "DecomposeAC v{}", byte_at(frame, 1));
    if byte_at(frame, 2) == 1 {
        say!(rt; " idempotent");
    }
    say_rest(rt, byte_at(frame, 3), byte_at(frame, 4), frame);
}

fn say_decompose_aci(rt: &HostRuntime, frame: &[u8]) {
    say!(rt; "DecomposeACI v{}", byte_at(frame, 1));
    say_rest(rt, byte_at(frame, 2), byte_at(frame, 3), frame);
}

fn say_extract_literal(rt: &HostRuntime, frame: &[u8]) {
    say!(rt; "ExtractLitVal of v{} into l{}", byte_at(frame, 1), byte_at(frame, 2));
}

fn say_check_literal(rt: &HostRuntime, frame: &[u8]) {
    say!(rt; "CheckLit v{} has value {:08x}", byte_at(frame, 1), word_at(frame, 2));
}

// A frame of a plan, its header or a step.
pub fn say_step(rt: &HostRuntime, frame: &[u8], named: Option<u64>) {
    let second = byte_at(frame, 2);
    match byte_at(frame, 0) {
        0x3f => say_header(rt, frame),
        0x40 => say_join(rt, frame, named),
        0x41 => say_extract_child(rt, frame),
        0x42 => say_check_child(rt, frame),
        0x43 => say_pair(rt, "CheckEq", frame, "is", Operand::Variable(second)),
        0x44 => say_pair(rt, "CheckEqGlobal", frame, "is", Operand::Global(second)),
        0x45 => say_pair(rt, "BindGlobal", frame, "to", Operand::Global(second)),
        0x46 => say_pair(rt, "CopyBinding", frame, "from", Operand::Variable(second)),
        0x47 => say_expand(rt, frame),
        0x48 => say_decompose_ac(rt, frame),
        0x49 => say_decompose_aci(rt, frame),
        0x4a => say_extract_literal(rt, frame),
        0x4b => say_check_literal(rt, frame),
        _ => say!(rt; "CheckPred guard {:02x}", byte_at(frame, 1)),
    }
    say!(rt; "\n");
}
