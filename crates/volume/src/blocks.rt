// Data blocks passed in a row: numbers only, since an image may hold millions of them. It knows of a section the lengths that its
// HDR2 gives.
ghost use Rattle.std.specs.Prelude.{◌≡◌};
ghost use Rattle.block.specs.Turn.{block_outcome};
ghost use Rattle.volume.specs.Code.Body.{PlaceInside, DidSkip};

use base::{SEGMENTED, VARIABLE};
use block::{Outcome, block_outcome, is_variable_block, segmented_outcome};
use image::block_length_at;

// The lengths of a section's blocks, as HDR2 gives them.
#[derive(Clone, Copy)]
pub struct Lengths {
    pub format: u8,
    pub block: usize,
    pub record_length: u32,
    pub offset: usize,
}

// A place between two data blocks: the item that stands there, the blocks of the section before it, and what is pending.
#[derive(Clone, Copy)]
pub struct Between {
    pub at: usize,
    pub item: u32,
    pub count: usize,
    pub pending: usize,
}

// The answer on a data block. A D block that can be cut and an S block are passed here, short ones with no call: an image may
// hold millions of them.
fn outcome_of(h: Lengths, pending: usize, s: &[u8]) -> Outcome
    ensures { result ≡ block_outcome h.format h.block h.record_length h.offset pending s.now }
{
    if h.format == VARIABLE {
        if pending == 0 {
            if is_variable_block(h.block, h.record_length, h.offset, s) {
                return Outcome {
                    number: 0,
                    pending: 0,
                };
            }
        }
    }
    if h.format == SEGMENTED {
        return segmented_outcome(h.block, h.record_length, h.offset, pending, s);
    }
    block_outcome(h.format, h.block, h.record_length, h.offset, pending, s)
}

// The place behind all the blocks from here on that have no fault.
pub(crate) fn past_blocks(image: &[u8], h: Lengths, from: Between) -> Between
    requires { PlaceInside image.now from.at from.item from.count }
    ensures { DidSkip image.now h from result }
{
    let mut at = from.at;
    let mut item = from.item;
    let mut count = from.count;
    let mut pending = from.pending;
    loop {
        let n = block_length_at(image, at);
        if n == 0 {
            return Between {
                at,
                item,
                count,
                pending,
            };
        }
        let start = at + 3;
        let end = start + n;
        let o = outcome_of(h, pending, &image[start..end]);
        if o.number != 0 {
            return Between {
                at,
                item,
                count,
                pending,
            };
        }
        at = end;
        item += 1;
        count += 1;
        pending = o.pending;
    }
}
