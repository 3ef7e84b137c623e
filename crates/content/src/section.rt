// The next data block of a file, over sections and reels. It knows no byte of a data block.
ghost use Rattle.std.specs.Prelude.{◌≡◌, drop};
ghost use Rattle.image.specs.Item.{decode};
ghost use Rattle.content.specs.Section.{as_block, data_from};

use crate::part::{Part, Position, search};
use image::{Shape, shape_at};
use order::Phase;

// A data block, by the place of its first byte and its length.
#[derive(Clone, Copy)]
pub struct Extent {
    pub start: usize,
    pub len: usize,
}

// A part as a data block, if it is one.
fn as_block(part: Option<Part>) -> Option<Extent>
    ensures { result ≡ as_block part }
{
    let Some(found) = part else {
        return None;
    };
    let Part::Block(start, len) = found else {
        return None;
    };
    Some(Extent { start, len })
}

// The next data block of a file, over what stands between two sections.
fn data_further(image: &[u8], at: usize) -> Option<Extent>
    ensures { result ≡ data_from Phase.Data at (decode (drop at image.now)) }
{
    let from = Position {
        at,
        hdr1: 0,
        phase: Phase::Data,
        continues: false,
    };
    let found = search(image, from, false, true);
    as_block(found.part)
}

// The next data block of a file, from a place between two items of its data on.
pub(crate) fn next_data(image: &[u8], from: usize) -> Option<Extent>
    ensures { result ≡ data_from Phase.Data from (decode (drop from image.now)) }
{
    match shape_at(image, from) {
        // Among the data every block is data: no kind has to be looked for.
        Shape::Block(len) => Some(Extent {
            start: from + 3,
            len,
        }),
        _ => data_further(image, from),
    }
}
