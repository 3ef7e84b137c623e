// Out: an image with a good framing is measured, and its reels are written as files. Nothing is written before it is certain that
// all of it has room.
ghost use Rattle.std.specs.Prelude.{◌≡◌, false, ◌≤◌, length};
ghost use Rattle.base.specs.Part.{put_at};
ghost use Rattle.image.specs.Framing.{most_image, framed_from, items, framing};
ghost use Rattle.simh.specs.Tape.{encode};
ghost use Rattle.simh.specs.Set.{Converts, to_simh};
ghost use Rattle.simh.specs.Code.Passes.{Answered, Sized, FilesFit, short_of, lengths_from};

use crate::put::{put_four, put_record};
use crate::tape::{END_WORD, span};
use base::Verdict;
use image::{MOST_REELS, Shape, shape_at};

// What conversion into files answers: the number given back, with its place, and how many bytes and files were written, both 0
// with a refusal.
#[repr(C)]
#[derive(Clone, Copy)]
pub struct Tapes {
    pub verdict: Verdict,
    pub len: u64,
    pub files: u64,
}

// An image with a good framing: the bytes of its files and their number.
#[derive(Clone, Copy)]
pub struct Size {
    pub len: usize,
    pub files: usize,
}

// ---- the check

// The items of an image that opens as one.
#[tactic(auto, using(crate::proofs::Sizing::sizes))]
fn size_of_items(image: &[u8]) -> Result<Size, Verdict>
    requires { length image.now ≤ most_image }
    ensures { Answered (framed_from 0 0 false (items image.now)) (Sized image.now) result }
{
    let mut at: usize = 5;
    let mut item: u32 = 0;
    let mut files: usize = 0;
    let mut closed = false;
    let mut len: usize = 0;
    // Kept by hand: each item says where the next stands; an iterator over them would be this loop, with a contract of its own.
    while at < image.len() {
        if files == MOST_REELS {
            return Err(Verdict::at(2, item));
        }
        match shape_at(image, at) {
            Shape::Block(n) => {
                at = at + 3 + n;
                item += 1;
                closed = false;
                len += span(n);
            }
            Shape::Mark => {
                at += 3;
                item += 1;
                closed = false;
                len += 4;
            }
            Shape::ReelEnd => {
                at += 3;
                item += 1;
                files += 1;
                closed = true;
                len += 4;
            }
            Shape::Broken => return Err(Verdict::at(2, item)),
        }
    }
    if closed {
        return Ok(Size { len, files });
    }
    Err(Verdict::at(2, item))
}

// The framing of an image, and the size of its files.
#[tactic(auto, using(crate::proofs::Sizing::frames))]
fn size_of_image(image: &[u8]) -> Result<Size, Verdict>
    ensures { Answered (framing image.now) (Sized image.now) result }
{
    if image::opens(image) {
        return size_of_items(image);
    }
    Err(image::framing(image))
}

// ---- the files

// Writes the items of an image with a good framing as files, and the length of each file into the list.
#[tactic(auto, using(crate::proofs::Laying::lays))]
fn put_files(image: &[u8], out: &mut [u8], lengths: &mut [u64])
    requires { FilesFit (items image.now) (length out.old) (length lengths.old) }
    ensures out_after { out.new ≡ put_at out.old 0 (encode (items image.now)) }
    ensures lengths_after { lengths.new ≡ put_at lengths.old 0 (lengths_from 0 (items image.now)) }
{
    let mut at: usize = 5;
    let mut to: usize = 0;
    let mut from: usize = 0;
    let mut file: usize = 0;
    // Kept by hand: each item says where the next stands; an iterator over them would be this loop, with a contract of its own.
    while at < image.len() {
        match shape_at(image, at) {
            Shape::Block(n) => {
                let start = at + 3;
                let end = start + n;
                put_record(out, to, &image[start..end]);
                at = end;
                to += span(n);
            }
            Shape::Mark => {
                put_four(out, to, 0);
                at += 3;
                to += 4;
            }
            Shape::ReelEnd => {
                put_four(out, to, END_WORD);
                at += 3;
                to += 4;
                lengths[file] = (to - from) as u64;
                from = to;
                file += 1;
            }
            Shape::Broken => return,
        }
    }
}

// A refusal.
fn refused(verdict: Verdict) -> Tapes
    ensures { result ≡ record { verdict = verdict; len = 0; files = 0 } }
{
    Tapes {
        verdict,
        len: 0,
        files: 0,
    }
}

// Number 10.
#[tactic(auto, unfolding(crate::specs::Code::Passes::short_of))]
fn too_short() -> Tapes
    ensures { result ≡ short_of }
{
    refused(Verdict::at(10, 0))
}

// Converts an image into tape files, one a reel, end to end at the front of a lent buffer, their lengths at the front of a lent
// list: 9, 1 and 2 as the framing has them, then 10 where the buffer or the list is too short. Nothing but a good framing is
// asked of the image.
pub fn to_simh(image: &[u8], out: &mut [u8], lengths: &mut [u64]) -> Tapes
    ensures { Converts (to_simh image.now out.old lengths.old) result out.new lengths.new }
{
    let size = match size_of_image(image) {
        Ok(size) => size,
        Err(verdict) => return refused(verdict),
    };
    if out.len() < size.len {
        return too_short();
    }
    if lengths.len() < size.files {
        return too_short();
    }
    put_files(image, out, lengths);
    Tapes {
        verdict: Verdict::at(0, 0),
        len: size.len as u64,
        files: size.files as u64,
    }
}
