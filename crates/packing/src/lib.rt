// The answers of the C functions as one number each; what C reads out of them stands in specs/Unpacked.antt.
#![tactic(auto)]

ghost use Rattle.std.specs.Prelude.{◌≡◌};
ghost use Rattle.packing.specs.Packed.{packed_refusal, packed_counts, packed_written, packed_choice};

// A refusal: the document's number, the text (0 query, 1 plan, 2 table) and the line.
pub fn refusal(number: u8, text: u8, line: usize) -> u64
    ensures { result ≡ packed_refusal number text line }
{
    let l = (line % 0x1_0000) as u64;
    0x8000_0000_0000_0000 + u64::from(number) * 0x100_0000 + u64::from(text) * 0x1_0000 + l
}

// A plan: the bytes written, its steps and its tallies.
pub fn counts(bytes: usize, steps: usize, tallied: usize, rejected: usize) -> u64
    ensures { result ≡ packed_counts bytes steps tallied rejected }
{
    let b = (bytes % 0x8000) as u64;
    let s = (steps % 0x1_0000) as u64;
    let t = (tallied % 0x1_0000) as u64;
    let r = (rejected % 0x1_0000) as u64;
    ((b * 0x1_0000 + s) * 0x1_0000 + t) * 0x1_0000 + r
}

// A run: how it ended (0 done, 1 spent, 2 full), and the bytes written.
pub fn written(status: u8, bytes: usize) -> u64
    ensures { result ≡ packed_written status bytes }
{
    let w = (bytes % 0x1_0000_0000) as u64;
    u64::from(status) * 0x1_0000_0000 + w
}

// A round: the atom chosen, where one was found.
pub fn choice(found: bool, atom: u8) -> u64
    ensures { result ≡ packed_choice found atom }
{
    if found { u64::from(atom) } else { 0x100 }
}
