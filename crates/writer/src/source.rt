// The records of a file, one after the other, from the slices of an order sheet or from an accepted image: where the next one
// stands. It knows how each of them holds a record, and nothing of blocks that are written.
ghost use Rattle.std.specs.Prelude.{◌≡◌, true};
ghost use Rattle.writer.specs.Code.Source.{walk_of, GoodCursor, stop_of, end_at, DidFind};

use block::word_of;
use content::{Measured, Walk, at_block, measure_far, whole_at};

// Where a pass is in a file. Of a sheet: the place of the next record's bytes, the number of records that are left, and the end
// of the file's lengths. Of an image: the place of what is left of the current block, and how many bytes that is; the offset
// length, the record length and the format of the file.
// Kept flat, for both sources: the loop over records copies one that holds a walk at each turn, and two loops are slower than one
// (docs/PROVING.md).
#[derive(Clone, Copy)]
pub struct Cursor {
    pub at: usize,
    pub left: usize,
    pub stop: usize,
    pub offset: usize,
    pub record_length: u32,
    pub format: u32,
    pub image: bool,
}

// How a record stands: in one piece, at a place, or in several segments.
#[derive(Clone, Copy)]
pub enum Shape {
    Piece(usize),
    Segments,
}

// The next record: how it stands; its length; the cursor's place and what is left behind it.
#[derive(Clone, Copy)]
pub struct Found {
    pub shape: Shape,
    pub len: usize,
    pub at: usize,
    pub left: usize,
}

// The walk of an image's cursor.
pub(crate) fn walk_of(c: Cursor) -> Walk
    ensures { result ≡ walk_of c }
{
    Walk {
        format: c.format,
        record_length: c.record_length,
        offset: c.offset,
        at: c.at,
        left: c.left,
    }
}

// The next record of an image's file, behind padding or a change of reel, or in several segments.
fn next_far(lengths: &[u64], bytes: &[u8], c: Cursor) -> Option<Found>
    requires good_cursor { GoodCursor lengths.now bytes.now c }
    requires image_value { c.image ≡ true }
    ensures { DidFind lengths.now bytes.now c result }
{
    let Some(measured) = measure_far(bytes, walk_of(c)) else {
        return None;
    };
    match measured {
        Measured::Whole(from, len, v) => Some(Found {
            shape: Shape::Piece(from),
            len,
            at: v.at,
            left: v.left,
        }),
        Measured::Split(len, v) => Some(Found {
            shape: Shape::Segments,
            len,
            at: v.at,
            left: v.left,
        }),
    }
}

// The next record of an image's file, which most often stands whole in a block and then is told by one number.
#[tactic(auto, using(crate::proofs::Sources::read))]
fn next_read(lengths: &[u64], bytes: &[u8], c: Cursor) -> Option<Found>
    requires good_cursor { GoodCursor lengths.now bytes.now c }
    requires image_value { c.image ≡ true }
    ensures { DidFind lengths.now bytes.now c result }
{
    let v = at_block(bytes, walk_of(c));
    let k = whole_at(bytes, v.format, v.record_length, v.at, v.left);
    if k == 0 {
        return next_far(lengths, bytes, c);
    }
    let word = word_of(v.format);
    Some(Found {
        shape: Shape::Piece(v.at + word),
        len: k - word,
        at: v.at + k,
        left: v.left - k,
    })
}

// The next record of a file: of an image, or of a sheet, whose lengths say where it ends.
#[tactic(auto, using(crate::proofs::Sources::listed))]
pub(crate) fn next(lengths: &[u64], bytes: &[u8], c: Cursor) -> Option<Found>
    requires { GoodCursor lengths.now bytes.now c }
    ensures { DidFind lengths.now bytes.now c result }
{
    if c.image {
        return next_read(lengths, bytes, c);
    }
    let left = c.left;
    if left == 0 {
        return None;
    }
    let i = c.stop - left;
    let n = lengths[i] as usize;
    Some(Found {
        shape: Shape::Piece(c.at),
        len: n,
        at: c.at + n,
        left: left - 1,
    })
}

// The place at which a file ends whose records are all found.
#[tactic(auto, unfolding(crate::specs::Code::Source::stop_of, base::specs::If::if_b))]
pub(crate) fn stop_of(lengths: &[u64], bytes: &[u8], c: Cursor) -> usize
    requires good_cursor { GoodCursor lengths.now bytes.now c }
    requires c_value { stop_of c ≡ end_at lengths.now bytes.now c }
    ensures { result ≡ end_at lengths.now bytes.now c }
{
    if c.image {
        return c.at + c.left;
    }
    c.at
}
