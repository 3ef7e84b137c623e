// The record at a walk's place, by its numbers: where it stands or how long it is, and the walk behind it. It changes no byte.
ghost use Rattle.std.specs.Prelude.{◌≡◌};
ghost use Rattle.content.specs.Walk.{rest_at, record_at};
ghost use Rattle.content.specs.Code.Heads.{Inside, segment_in, turn_in, begun_in, BegunAt};
ghost use Rattle.content.specs.Whole.{at_block, stands_at, whole_in};
ghost use Rattle.content.specs.Measure.{measured_by};
ghost use Rattle.content.specs.Code.Joining.{tail_by};

use crate::Walk;
use crate::unit::{is_inside, moved, unit_from, unit_next};
use base::SEGMENTED;
use block::{segment_length, whole_length, word_of};
use image::{Shape, shape_at};

// The rest of a record that was begun: its length, and the walk behind it.
#[derive(Clone, Copy)]
pub struct Tail {
    pub len: usize,
    pub behind: Walk,
}

// A record that is one unit, by its place and length, or one of several segments, by its length, each with the walk behind it.
#[derive(Clone, Copy)]
pub enum Measured {
    Whole(usize, usize, Walk),
    Split(usize, Walk),
}

// The walk at the head of the next block, where nothing is left of the current one and a block stands there; else the walk
// itself.
pub fn at_block(image: &[u8], w: Walk) -> Walk
    ensures { result ≡ at_block image.now w }
{
    if w.left != 0 {
        return w;
    }
    match shape_at(image, w.at) {
        Shape::Block(n) => {
            if n < w.offset {
                return w;
            }
            moved(w, w.at + 3 + w.offset, n - w.offset)
        }
        _ => w,
    }
}

// The bytes, with its control word, of the whole record at the head of what is left of a block; or 0. It is asked for each
// record, and so takes its walk as numbers.
pub fn whole_at(image: &[u8], format: u32, record_length: u32, at: usize, left: usize) -> usize
    ensures { result ≡ whole_in image.now (stands_at format record_length at left) }
{
    if record_length == 0 {
        return 0;
    }
    if image.len() < at {
        return 0;
    }
    if image.len() - at < left {
        return 0;
    }
    if 256 <= format {
        return 0;
    }
    let end = at + left;
    whole_length(format as u8, record_length, &image[at..end], 0)
}

// The bytes, with its control word, of the segment at the head of what is left of a block of an S file, where `before` bytes are
// left of the block before it: none have to be. Or 0.
pub(crate) fn segment_in(image: &[u8], before: usize, format: u32, at: usize, left: usize) -> usize
    ensures { result ≡ segment_in image.now before (stands_at format 0 at left) }
{
    if before != 0 {
        return 0;
    }
    if format != SEGMENTED as u32 {
        return 0;
    }
    if image.len() < at {
        return 0;
    }
    if image.len() - at < left {
        return 0;
    }
    let end = at + left;
    segment_length(&image[at..end], 0)
}

// The same, where the segment has this digit as its indicator, and at most so many bytes.
pub(crate) fn turn_in(
    image: &[u8],
    before: usize,
    digit: u8,
    most: usize,
    format: u32,
    at: usize,
    left: usize,
) -> usize
    ensures { result ≡ turn_in image.now before digit most (stands_at format 0 at left) }
{
    let k = segment_in(image, before, format, at, left);
    if k == 0 {
        return 0;
    }
    if image[at] != digit {
        return 0;
    }
    if most < k - 5 {
        return 0;
    }
    k
}

// The same, where the segment begins a record of at most R bytes.
pub(crate) fn begun_at(
    image: &[u8],
    format: u32,
    record_length: u32,
    at: usize,
    left: usize,
) -> usize
    ensures { result ≡ begun_in image.now (stands_at format record_length at left) }
{
    if record_length == 0 {
        return 0;
    }
    turn_in(image, 0, b'1', record_length as usize, format, at, left)
}

// The rest of a record that may have `most` bytes more, unless a segment of it is out of turn or lacking.
pub(crate) fn rest_length(image: &[u8], most: usize, from: Walk) -> Option<Tail>
    requires { Inside image.now from }
    ensures { result ≡ tail_by (rest_at image.now most from) }
{
    let mut room = most;
    let mut total: usize = 0;
    let mut w = from;
    while let Some(unit) = unit_next(image, w) {
        if room < unit.len {
            return None;
        }
        if unit.indicator == 3 {
            return Some(Tail {
                len: total + unit.len,
                behind: unit.behind,
            });
        }
        if unit.indicator != 2 {
            return None;
        }
        room -= unit.len;
        total += unit.len;
        w = unit.behind;
    }
    None
}

// The record at a walk's place, if one stands there, unit by unit.
pub(crate) fn measure_units(image: &[u8], w: Walk) -> Option<Measured>
    ensures { result ≡ measured_by (record_at image.now w) }
{
    if w.record_length == 0 {
        return None;
    }
    if !is_inside(image, w) {
        return None;
    }
    let most = w.record_length as usize;
    let Some(first) = unit_from(image, w) else {
        return None;
    };
    if most < first.len {
        return None;
    }
    if first.indicator == 0 {
        return Some(Measured::Whole(first.start, first.len, first.behind));
    }
    if first.indicator != 1 {
        return None;
    }
    let Some(rest) = rest_length(image, most - first.len, first.behind) else {
        return None;
    };
    Some(Measured::Split(first.len + rest.len, rest.behind))
}

// The record that begins with the segment, of k bytes with its control word, at the head of what is left of the current block; if
// it ends.
fn measure_begun(image: &[u8], v: Walk, k: usize) -> Option<Measured>
    requires { BegunAt image.now v k }
    ensures { result ≡ measured_by (record_at image.now v) }
{
    let n = k - 5;
    let most = v.record_length as usize;
    let u = moved(v, v.at + k, v.left - k);
    let Some(rest) = rest_length(image, most - n, u) else {
        return None;
    };
    Some(Measured::Split(n + rest.len, rest.behind))
}

// The record at a walk's place, for a caller who knows that no whole one stands in the current block, nor at the head of the
// next: most often one begins there.
pub fn measure_far(image: &[u8], w: Walk) -> Option<Measured>
    ensures { result ≡ measured_by (record_at image.now w) }
{
    let v = at_block(image, w);
    let k = begun_at(image, v.format, v.record_length, v.at, v.left);
    if k == 0 {
        return measure_units(image, w);
    }
    measure_begun(image, v, k)
}

// The record at a walk's place. Most records stand whole in a block, and are told by one number. It stays a call: the loop that
// passes records takes longer with all of it.
#[inline(never)]
pub fn measure(image: &[u8], w: Walk) -> Option<Measured>
    ensures { result ≡ measured_by (record_at image.now w) }
{
    let v = at_block(image, w);
    let k = whole_at(image, v.format, v.record_length, v.at, v.left);
    if k != 0 {
        let word = word_of(v.format);
        return Some(Measured::Whole(v.at + word, k - word, moved(v, v.at + k, v.left - k)));
    }
    measure_far(image, w)
}
