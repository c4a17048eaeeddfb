// The items of an atom's frame: children of a Plain, elements of a collection.
ghost use Rattle.std.specs.Prelude.{◌≡◌, ◌+◌, ◌*◌, ◌<◌};
ghost use Rattle.prices.specs.Items.{ItemsOf, item_at};

use frames::frame::items_of;
use hexadecimal::byte_at;
use kinds::table::{fixed_length, item_width};
use passes::below::pv_is_bound;

// The items of a frame: the byte of the first, the width and number of all, the atom's operator, and whether they are elements.
#[derive(Clone, Copy)]
pub struct Items {
    pub first: usize,
    pub width: usize,
    pub count: usize,
    pub op: u8,
    pub elements: bool,
}

// An item: its byte and its position, the atom's operator, whether it is an element, and whether it is bound.
#[derive(Clone, Copy)]
pub struct Item {
    pub at: usize,
    pub position: u8,
    pub op: u8,
    pub element: bool,
    pub bound: bool,
}

// The items of a frame, as the table of kinds has them.
pub fn items_at(frame: &[u8]) -> Items
    ensures { ItemsOf frame.now result }
{
    let kind = byte_at(frame, 0);
    Items {
        first: fixed_length(kind),
        width: item_width(kind),
        count: items_of(frame),
        op: byte_at(frame, 2),
        elements: 6 < kind,
    }
}

// Item number k.
pub fn item_at(frame: &[u8], g: Items, k: usize, bound: &[bool]) -> Item
    requires k_bound { k < 256 }
    requires k_bound_2 { g.first + g.width * k < 65536 }
    ensures { result ≡ item_at frame.now g k bound.now }
{
    let at = g.first + g.width * k;
    Item {
        at,
        position: k as u8,
        op: g.op,
        element: g.elements,
        bound: pv_is_bound(frame, at, bound),
    }
}
