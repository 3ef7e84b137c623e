// An image item by item, whatever its bytes: what stands at a place, and where the next item does. It knows the groups of items,
// and no fault.
ghost use Rattle.std.specs.Prelude.{◌≡◌, ◌+◌, ◌<◌};
ghost use Rattle.order.specs.Kind.{kind};
ghost use Rattle.content.specs.Items.{seen_at, item_of, rest_at, item_at};

use image::{Shape, shape_at};
use order::{AMONG_DATA, DATA_BLOCK, END_OF_IMAGE, END_OF_REEL, Kind, TAPE_MARK, group_after};

// The family of what is no item: its length is none, or the image ends within it.
pub const TORN: u32 = 12;

// What stands at a place: a kind of item, and the number of its bytes.
#[derive(Clone, Copy)]
pub struct Seen {
    pub kind: Kind,
    pub len: usize,
}

// An item: its kind by family and number, the group in which the next one stands, the place and the number of its bytes, and the
// place behind it.
#[repr(C)]
#[derive(Clone, Copy)]
pub struct ItemAt {
    pub family: u32,
    pub number: u32,
    pub group: u32,
    pub start: usize,
    pub len: usize,
    pub behind: usize,
}

// An item of so many bytes, of a family without numbers.
fn unnumbered(family: u32, len: usize) -> Seen
    ensures { result ≡ record { kind = kind family 0; len = len } }
{
    Seen {
        kind: Kind { family, number: 0 },
        len,
    }
}

// The item at a place, if one stands there, where a block is data or else a label.
pub(crate) fn seen_at(image: &[u8], at: usize, datum: bool) -> Option<Seen>
    ensures { result ≡ seen_at image.now at datum }
{
    match shape_at(image, at) {
        Shape::Block(len) => {
            if datum {
                return Some(unnumbered(DATA_BLOCK, len));
            }
            let start = at + 3;
            let end = start + len;
            let kind = label::kind(&image[start..end]);
            Some(Seen { kind, len })
        }
        Shape::Mark => Some(unnumbered(TAPE_MARK, 0)),
        Shape::ReelEnd => Some(unnumbered(END_OF_REEL, 0)),
        Shape::Broken => None,
    }
}

// An item of kind k in a group, with len bytes from `start` on.
fn item_of(group: u32, k: Kind, start: usize, len: usize) -> ItemAt
    requires { start + len < 18446744073709551616 }
    ensures { result ≡ item_of group k start len }
{
    ItemAt {
        family: k.family,
        number: k.number,
        group: group_after(group, k),
        start,
        len,
        behind: start + len,
    }
}

// Where no item is: the end of the image, or all that is left of it.
fn rest_at(image: &[u8], group: u32, at: usize) -> ItemAt
    ensures { result ≡ rest_at image.now group at }
{
    if image.len() <= at {
        let k = Kind {
            family: END_OF_IMAGE,
            number: 0,
        };
        return item_of(group, k, at, 0);
    }
    let k = Kind {
        family: TORN,
        number: 0,
    };
    item_of(group, k, at, image.len() - at)
}

// What stands at a place, in a group: any place and any group. Among data blocks a block is data.
pub fn item_at(image: &[u8], at: usize, group: u32) -> ItemAt
    ensures { result ≡ item_at image.now at group }
{
    match seen_at(image, at, group == AMONG_DATA) {
        Some(seen) => item_of(group, seen.kind, at + 3, seen.len),
        None => rest_at(image, group, at),
    }
}
