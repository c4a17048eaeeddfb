// "The first stands, later ones are passed over": the rows of a table in turn, with an index of those that stand.
ghost use Rattle.indexing.specs.Index.{Indexed};
ghost use Rattle.standing.specs.Stands.{TurnRoom, Turned, StandingRoom, Stands};

use super::row::put_row;
use frame_tests::tests::is_row;
use frames::frame::frame_at;
use hexadecimal::byte_at;
use indexing::index::{MANY_SLOTS, hash_of, key_given, note};

// How many bytes are laid, and how many of the rows are old.
#[derive(Clone, Copy)]
pub struct Stood {
    pub bytes: usize,
    pub old: usize,
}

// How many numbers an index of the rows that stand has: its slots, two numbers a row, two entries more.
pub const SEEN: usize = MANY_SLOTS + 2 * (1024 + 2);

// The key of a row is its whole frame.
const ROW_KEY: u8 = 255;

// The turn of a row that is laid behind the first `from` bytes, m others being entered: whether it is passed over. If not it is entered.
fn passed_over(out: &[u8], from: usize, to: usize, seen: &mut [u16], m: usize) -> bool
    requires { TurnRoom out.now from to seen.old m }
    ensures { Turned out.now from to seen.old m seen.new result }
{
    let row = &out[from..to];
    let hash = hash_of(row);
    if key_given(&out[..from], seen, row, hash, ROW_KEY) {
        return true;
    }
    note(seen, row, hash, ROW_KEY, from, m);
    false
}

// The rows that stand, of which those of the numbers below `new` are old.
pub fn lay_standing(
    sheet: &[u8],
    index: &[u16],
    new: usize,
    out: &mut [u8],
    seen: &mut [u16],
) -> Stood
    requires indexed { Indexed sheet.now index.now }
    requires standing_room { StandingRoom sheet.now out.old seen.old }
    ensures { Stands sheet.now new out.new result }
{
    let mut at: usize = 0;
    let mut n: usize = 0;
    let mut bytes: usize = 0;
    let mut m: usize = 0;
    let mut old: usize = 0;
    // kept: what is laid is never longer than the sheet up to `at`, the place that an iterator over frames does not show.
    while at < sheet.len() {
        let frame = frame_at(sheet, at);
        at += frame.len();
        if !is_row(byte_at(frame, 0)) {
            continue;
        }
        n += 1;
        let behind = put_row(sheet, index, frame, out, bytes);
        if passed_over(out, bytes, behind, seen, m) {
            continue;
        }
        bytes = behind;
        m += 1;
        if new < n {
            continue;
        }
        old = m;
    }
    Stood { bytes, old }
}
