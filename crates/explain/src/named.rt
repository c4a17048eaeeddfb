// What a run that names an atom as its new one makes of a plan's Joins.
use super::refusals::say_unjoined;
use super::words::say;
use modes::mode::{IndexMode, mode};
use named_joins::joins::has_join;

fn say_mode(rt: &HostRuntime, m: IndexMode) {
    match m {
        IndexMode::Full => say!(rt; ", tries all rows"),
        IndexMode::Delta => say!(rt; ", tries new rows"),
        IndexMode::FullMinusDelta => say!(rt; ", tries old rows"),
    }
}

// Which rows the Join of an atom tries, where one is named.
pub fn say_rows(rt: &HostRuntime, named: Option<u64>, atom: u8) {
    match named {
        None => (),
        Some(_) => say_mode(rt, mode(named, atom)),
    }
}

fn say_atom(rt: &HostRuntime, sheet: &[u8], atom: u64) {
    if !has_join(sheet, atom) {
        say_unjoined(rt, atom);
    }
}

// Where no Join of a plan's sheet is of the named atom, a line says so.
pub fn say_named(rt: &HostRuntime, sheet: &[u8], named: Option<u64>) {
    match named {
        None => (),
        Some(a) => say_atom(rt, sheet, a),
    }
}
