// Why a text is refused, in document 01's words; and a run that names an atom.
use super::words::say;
use std::fmt;

// What a refusal's number stands for.
#[derive(Clone, Copy)]
struct Condition(u8);

impl fmt::Display for Condition {
    fn fmt<W: fmt::Write>(&self, f: &mut fmt::Formatter<W>) -> fmt::Result {
        f.write_str(match self.0 {
            1 => "no digits, odd digits, other byte, or last 0a missing",
            2 => "kind not of this text, or a header missing or repeated",
            3 => "length unlike the kind's, or step count wrong",
            4 => "above a limit, undefined tag, or unused byte not 00",
            5 => "variable, global, literal or atom not below its count",
            6 => "by_repr, fan-out or cv not finite or below 0",
            7 => "key given twice",
            8 => "whole plan longer than the output",
            13 => "frame 24 without a table, or beside frames 21 to 23",
            _ => "a leader has a frame 34 itself",
        })
    }
}

pub fn say_refusal(rt: &HostRuntime, number: u8, line: usize, text: &str) {
    say!(rt; "refused {number}");
    if 0 < line {
        say!(rt; " at line {line}");
    }
    say!(rt; " of the {text}: {}\n", Condition(number));
}

// 12: the named atom has no Join.
pub fn say_unjoined(rt: &HostRuntime, atom: u64) {
    say!(rt; "no Join of atom {atom}: the run is refused (12)\n");
}
