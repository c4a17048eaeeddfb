// Where frame 34 may stand in a table: the leader that it names has none.
ghost use Rattle.std.specs.Prelude.{◌≡◌, true, length};
ghost use Rattle.class_sets.specs.Sets.{set_words};
ghost use Rattle.indexing.specs.Index.{slots_for, Falling};
ghost use Rattle.second_reading.specs.Leading.{leads};
ghost use Rattle.second_reading.specs.Rereading.{chained_by, Marked};

use class_sets::below::{byte_at, short_at};
use class_sets::set::{add_class, has_class};
use indexing::below::begins;
use indexing::index::{hash_of, key_given};

// Whether the leader of a frame 34 has one: this one, or one that is entered; or whether its class is the leader of one that is entered.
pub fn is_chained(sheet: &[u8], index: &[u16], leaders: &[u64], frame: &[u8]) -> bool
    requires { Falling (slots_for (length index.now)) index.now }
    ensures { result ≡ chained_by sheet.now index.now leaders.now frame.now }
{
    if byte_at(frame, 0) != 0x34 {
        return false;
    }
    let key = [0x34, byte_at(frame, 3), byte_at(frame, 4)];
    if begins(&key, frame) {
        return true;
    }
    key_given(sheet, index, &key, hash_of(&key), 3) || has_class(leaders, short_at(frame, 1))
}

// The leader of a frame 34 joins the set of leaders.
pub fn mark_leader(leaders: &mut [u64], frame: &[u8])
    requires { leads frame.now ≡ true → length leaders.old ≡ set_words }
    ensures { Marked leaders.old leaders.new frame.now }
{
    if byte_at(frame, 0) == 0x34 {
        add_class(leaders, short_at(frame, 3));
    }
}
