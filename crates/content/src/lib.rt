// Records handed out: by number, and by a walk over one file. It knows where a record stands and how its segments are joined;
// what is right in a set it leaves to the layers below.

#![tactic(auto)]

mod counting; // counting.rt: how many records, and how long
mod file; // file.rt: the files of a set, one after the other
mod holding; // holding.rt: what a file holds, block by block
mod items; // items.rt: an image item by item
mod join; // join.rt: segments joined in a buffer
mod measuring; // measuring.rt: the record at a place, by its numbers
mod numbers; // numbers.rt: an answer as document 01's number and values
mod part; // part.rt: the parts of an image, one after the other
mod row; // row.rt: the records that stand whole, as many as a pair of lists has room for
mod section; // section.rt: the next data block of a file
mod segment; // segment.rt: a record segment by segment
mod unit; // unit.rt: the next unit of a file

ghost use Rattle.std.specs.Prelude.{◌≡◌, length};
ghost use Rattle.base.specs.Answer.{verdict};
ghost use Rattle.content.specs.Walk.{step_at, join_at};
ghost use Rattle.content.specs.Code.Heads.{BegunAt, TwoAt};
ghost use Rattle.content.specs.File.{begun_at};
ghost use Rattle.content.specs.Numbers.{record_of, beginning_of, stepped_of, Said};
ghost use Rattle.content.specs.Found.{passed, found_by, found_in, left_in, found_from, left_from, found_at, left_at, part_of};

use base::{Verdict, part_of};
use block::word_of;
pub use counting::{Facts, file_facts};
use file::file_numbered;
pub use file::{file_behind, first_file, next_file};
pub use holding::{FileHeld, file_held};
pub use items::{ItemAt, item_at};
use join::{join_from, join_record, join_two};
pub use measuring::{Measured, at_block, measure, measure_far, whole_at};
use measuring::{begun_at, measure_units, rest_length, turn_in};
use numbers::begun_by;
pub use numbers::{Beginning, Located, Stepped, beginning_of, file_of, record_of, stepped_of};
pub use part::{Part, PartAt, Position, next_part};
pub use row::{Row, steps};
pub use segment::{first_segment, next_segment};
pub use unit::Taken;
use unit::moved;
use volume::check;

// A walk over the records of one file: the format, the record length and the offset length of the file, the place of what is left
// of the current block, and how many bytes of it are left. With none left the place is that of the next item.
#[repr(C)]
#[derive(Clone, Copy)]
pub struct Walk {
    pub format: u32,
    pub record_length: u32,
    pub offset: usize,
    pub at: usize,
    pub left: usize,
}

// A file of a set: the places of the first byte of its first HDR1 and HDR2, and the walk at its first record.
#[derive(Clone, Copy)]
pub struct FileAt {
    pub hdr1: usize,
    pub hdr2: usize,
    pub walk: Walk,
}

// Where a record is: a part of the image, by its place and length, or the front of the joining buffer.
#[derive(Clone, Copy)]
pub enum Found {
    InImage(usize, usize),
    Joined(usize),
}

impl Walk {
    // The refusal stays a number: the page of demands speaks of any step's (demands/specs/Demands.antt).
    // The record at the walk's place, and the walk behind it: 13 where there is none, 10 where it has several segments and is
    // longer than the buffer. A record of one unit changes no byte of the buffer, a joined one its own bytes at the front, a
    // refusal none.
    pub fn step(self, image: &[u8], join: &mut [u8]) -> Result<(Found, Walk), u32>
        ensures said { Said (stepped_of self) result (step_at image.now (length join.old) self) }
        ensures join_after { join.new ≡ join_at image.now join.old self }
    {
        let v = at_block(image, self);
        let k = whole_at(image, v.format, v.record_length, v.at, v.left);
        if k != 0 {
            let word = word_of(v.format);
            let behind = moved(v, v.at + k, v.left - k);
            return Ok((Found::InImage(v.at + word, k - word), behind));
        }
        step_split(image, self, join)
    }
}

// The same, unit by unit.
fn step_units(image: &[u8], w: Walk, join: &mut [u8]) -> Result<(Found, Walk), u32>
    ensures value { result ≡ step_at image.now (length join.old) w }
    ensures join_after { join.new ≡ join_at image.now join.old w }
{
    let Some(measured) = measure_units(image, w) else {
        return Err(13);
    };
    match measured {
        Measured::Whole(start, n, v) => Ok((Found::InImage(start, n), v)),
        Measured::Split(n, v) => {
            if join.len() < n {
                return Err(10);
            }
            join_record(image, w, join);
            Ok((Found::Joined(n), v))
        }
    }
}

// The record that begins with the segment, of k bytes with its control word, at the head of what is left of the current block:
// measured, then joined.
fn step_segments(image: &[u8], v: Walk, k: usize, join: &mut [u8]) -> Result<(Found, Walk), u32>
    requires { BegunAt image.now v k }
    ensures value { result ≡ step_at image.now (length join.old) v }
    ensures join_after { join.new ≡ join_at image.now join.old v }
{
    let n = k - 5;
    let most = v.record_length as usize;
    let u = moved(v, v.at + k, v.left - k);
    let Some(rest) = rest_length(image, most - n, u) else {
        return Err(13);
    };
    let len = n + rest.len;
    if join.len() < len {
        return Err(10);
    }
    join_from(image, v.at + 5, n, u, join);
    Ok((Found::Joined(len), rest.behind))
}

// A record of two segments: the first, of k bytes with its control word, at the head of what is left of the current block, and
// the second, of j, at the head h of the next.
fn step_two(
    image: &[u8],
    v: Walk,
    k: usize,
    h: Walk,
    j: usize,
    join: &mut [u8],
) -> Result<(Found, Walk), u32>
    requires { TwoAt image.now v k h j }
    ensures value { result ≡ step_at image.now (length join.old) v }
    ensures join_after { join.new ≡ join_at image.now join.old v }
{
    let n = k - 5;
    let m = j - 5;
    let total = n + m;
    if join.len() < total {
        return Err(10);
    }
    join_two(image, v.at + 5, n, h.at + 5, m, join);
    Ok((Found::Joined(total), moved(h, h.at + j, h.left - j)))
}

// The record that begins with the segment, of k bytes with its control word, at the head of what is left of the current block.
// Most often the next block stands right behind, and the segment at its head ends the record.
fn step_begun(image: &[u8], v: Walk, k: usize, join: &mut [u8]) -> Result<(Found, Walk), u32>
    requires { BegunAt image.now v k }
    ensures value { result ≡ step_at image.now (length join.old) v }
    ensures join_after { join.new ≡ join_at image.now join.old v }
{
    let n = k - 5;
    let most = v.record_length as usize;
    let u = moved(v, v.at + k, v.left - k);
    let h = at_block(image, u);
    let j = turn_in(image, u.left, b'3', most - n, h.format, h.at, h.left);
    if j == 0 {
        return step_segments(image, v, k, join);
    }
    step_two(image, v, k, h, j, join)
}

// The same, where no whole record stands in the current block, or at the head of the next: most often one begins there.
fn step_split(image: &[u8], w: Walk, join: &mut [u8]) -> Result<(Found, Walk), u32>
    ensures value { result ≡ step_at image.now (length join.old) w }
    ensures join_after { join.new ≡ join_at image.now join.old w }
{
    let v = at_block(image, w);
    let k = begun_at(image, v.format, v.record_length, v.at, v.left);
    if k == 0 {
        return step_units(image, w, join);
    }
    step_begun(image, v, k, join)
}

// An answer without a place.
pub(crate) fn answer(number: u32) -> Verdict
    ensures { result ≡ verdict number 0 0 }
{
    Verdict {
        number,
        item: 0,
        byte: 0,
    }
}

// A file by its number, from 1, with the walk at its first record: the image's own number, then 13 where there is no such file.
pub fn begin(image: &[u8], file: u64) -> Result<FileAt, Verdict>
    ensures { Said beginning_of result (begun_at image.now file) }
{
    let v = check(image);
    if v.number != 0 {
        return Err(v);
    }
    begun_by(file_numbered(image, file))
}

// The walk behind so many records, if there are so many.
fn pass(image: &[u8], from: Walk, records: u64) -> Option<Walk>
    ensures { result ≡ passed image.now records from }
{
    let mut left = records;
    let mut w = from;
    while 0 < left {
        let Some(measured) = measure(image, w) else {
            return None;
        };
        match measured {
            Measured::Whole(_, _, v) => {
                left -= 1;
                w = v;
            }
            Measured::Split(_, v) => {
                left -= 1;
                w = v;
            }
        }
    }
    Some(w)
}

// What a step says of the record, without the walk behind it.
fn found_by(x: Result<(Found, Walk), u32>) -> Result<Found, Verdict>
    ensures { result ≡ found_by x }
{
    match x {
        Ok((found, _)) => Ok(found),
        Err(number) => Err(answer(number)),
    }
}

// The record where a walk stands, if anywhere: one step behind a check of the whole image, which needs no quick way.
fn found_in(image: &[u8], x: Option<Walk>, join: &mut [u8]) -> Result<Found, Verdict>
    ensures value { result ≡ found_in image.now (length join.old) x }
    ensures join_after { join.new ≡ left_in image.now join.old x }
{
    match x {
        None => Err(answer(13)),
        Some(w) => found_by(step_units(image, w, join)),
    }
}

// Record r of the file that was begun, from 1.
fn found_from(
    image: &[u8],
    begun: Result<FileAt, Verdict>,
    r: u64,
    join: &mut [u8],
) -> Result<Found, Verdict>
    ensures value { result ≡ found_from image.now r (length join.old) begun }
    ensures join_after { join.new ≡ left_from image.now r join.old begun }
{
    let f = match begun {
        Ok(f) => f,
        Err(v) => return Err(v),
    };
    if r == 0 {
        return Err(answer(13));
    }
    found_in(image, pass(image, f.walk, r - 1), join)
}

// Record r of file n, both from 1: the image's own number, then 13, then 10, the latter two with place 0.
// A record of one unit is a part of the image and changes no byte of the buffer; one of several is joined into the front of the
// buffer.
pub fn record(image: &[u8], file: u64, r: u64, join: &mut [u8]) -> Result<Found, Verdict>
    ensures said { Said record_of result (found_at image.now file r (length join.old)) }
    ensures join_after { join.new ≡ left_at image.now file r join.old }
{
    found_from(image, begin(image, file), r, join)
}

// The record itself, as `record` found it: the part of the image or the front of the joining buffer; nothing with a refusal.
pub fn record_part<'a>(image: &'a [u8], join: &'a [u8], found: Result<Found, Verdict>) -> &'a [u8]
    ensures { result.now ≡ part_of image.now join.now found }
{
    match found {
        Ok(place) => match place {
            Found::InImage(start, len) => part_of(image, start, len),
            Found::Joined(len) => part_of(join, 0, len),
        },
        Err(_) => part_of(image, 0, 0),
    }
}
