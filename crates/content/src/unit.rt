// The next unit of a file, be it in the current block or the next. It knows no turn of segments.
ghost use Rattle.std.specs.Prelude.{◌≡◌, drop};
ghost use Rattle.block.specs.Unit.{unit_of};
ghost use Rattle.content.specs.Walk.{moved, is_inside, unit_here, block_next, unit_next, unit_from};
ghost use Rattle.content.specs.Code.Heads.{Inside};

use crate::Walk;
use crate::measuring::{at_block, segment_in};
use crate::section::{Extent, next_data};
use base::part_of;
use block::{Unit, all_padding, unit_at};

// A unit that a walk comes to: its indicator, the place and the length of its record or segment, and the walk behind it.
#[derive(Clone, Copy)]
pub struct Taken {
    pub indicator: u32,
    pub start: usize,
    pub len: usize,
    pub behind: Walk,
}

// The walk at another place, with so many bytes left there.
pub(crate) fn moved(w: Walk, at: usize, left: usize) -> Walk
    ensures { result ≡ moved w at left }
{
    Walk { at, left, ..w }
}

// Whether what is left of the current block does not run past the image.
pub(crate) fn is_inside(image: &[u8], w: Walk) -> bool
    ensures { result ≡ is_inside image.now w }
{
    let at = w.at;
    if image.len() < at {
        return false;
    }
    w.left <= image.len() - at
}

// The unit at the head of a part, in a file of that format; a number that is no byte is no format.
fn unit_in(format: u32, record_length: u32, s: &[u8]) -> Option<Unit>
    ensures { result ≡ unit_of format record_length (drop 0 s.now) }
{
    if format < 256 {
        return unit_at(format as u8, record_length, s, 0);
    }
    None
}

// The unit at the head of what is left of the current block.
fn unit_here(image: &[u8], w: Walk) -> Option<Taken>
    ensures { result ≡ unit_here image.now w }
{
    let at = w.at;
    let left = w.left;
    let Some(unit) = unit_in(w.format, w.record_length, part_of(image, at, left)) else {
        return None;
    };
    let start = at + unit.word;
    Some(Taken {
        indicator: unit.indicator,
        start,
        len: unit.len,
        behind: moved(w, start + unit.len, left - (unit.word + unit.len)),
    })
}

// The next data block behind its offset bytes, where only padding is left of the current one.
fn block_next(image: &[u8], w: Walk) -> Option<Walk>
    requires { Inside image.now w }
    ensures { result ≡ block_next image.now w }
{
    let at = w.at;
    let left = w.left;
    if !all_padding(part_of(image, at, left)) {
        return None;
    }
    let Some(block) = next_data(image, at + left) else {
        return None;
    };
    if block.len < w.offset {
        return None;
    }
    Some(moved(w, block.start + w.offset, block.len - w.offset))
}

// The first unit of the next block, wherever that is.
fn unit_beyond(image: &[u8], w: Walk) -> Option<Taken>
    requires { Inside image.now w }
    ensures { result ≡ unit_next image.now w }
{
    let Some(v) = block_next(image, w) else {
        return None;
    };
    unit_here(image, v)
}

// The first unit of the next block. Most often that is a segment, and its block stands right behind the current one.
pub(crate) fn unit_next(image: &[u8], w: Walk) -> Option<Taken>
    requires { Inside image.now w }
    ensures { result ≡ unit_next image.now w }
{
    let v = at_block(image, w);
    let k = segment_in(image, w.left, v.format, v.at, v.left);
    if k != 0 {
        let at = v.at;
        return Some(Taken {
            indicator: (image[at] - b'0') as u32,
            start: at + 5,
            len: k - 5,
            behind: moved(v, at + k, v.left - k),
        });
    }
    unit_beyond(image, w)
}

// The unit at the walk's place.
pub(crate) fn unit_from(image: &[u8], w: Walk) -> Option<Taken>
    requires { Inside image.now w }
    ensures { result ≡ unit_from image.now w }
{
    match unit_here(image, w) {
        Some(here) => Some(here),
        None => unit_next(image, w),
    }
}
