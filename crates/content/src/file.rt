// The files of a set, one after the other. It knows of HDR2 the format and the lengths.
ghost use Rattle.std.specs.Prelude.{◌≡◌, ◌+◌, ◌≤◌, length, drop};
ghost use Rattle.image.specs.Item.{decode};
ghost use Rattle.content.specs.File.{mark_from, walk_from, file_at, file_from, first_file, next_file, file_behind, files_on, file_numbered};
ghost use Rattle.content.specs.Numbers.{file_of, Said};

use crate::part::{Part, Position, search};
use crate::{FileAt, Walk};
use base::part_of;
use image::{Shape, shape_at};
use label::{format_of, offset_length, record_length};
use order::Phase;
use volume::value_of;

// The place behind the mark that ends a group of labels.
fn behind_mark(image: &[u8], from: usize) -> usize
    ensures { result ≡ mark_from from (decode (drop from image.now)) }
{
    let mut at = from;
    loop {
        match shape_at(image, at) {
            Shape::Block(n) => {
                at = at + 3 + n;
            }
            Shape::Mark => return at + 3,
            Shape::ReelEnd => return at,
            Shape::Broken => return at,
        }
    }
}

// A walk from a place between two items on, in a file with this HDR2.
fn walk_from(second: &[u8], at: usize) -> Walk
    ensures { result ≡ walk_from second.now at }
{
    Walk {
        format: format_of(second) as u32,
        record_length: value_of(record_length(second)),
        offset: value_of(offset_length(second)) as usize,
        at,
        left: 0,
    }
}

// The file with its first HDR1 and HDR2 at these places.
fn file_at(image: &[u8], hdr1: usize, hdr2: usize) -> FileAt
    requires { hdr2 + 80 ≤ length image.now }
    ensures { result ≡ file_at image.now hdr1 hdr2 }
{
    let end = hdr2 + 80;
    let walk = walk_from(part_of(image, hdr2, 80), behind_mark(image, end));
    FileAt { hdr1, hdr2, walk }
}

// The next file to begin from a place on, if one does.
fn file_from(image: &[u8], from: Position) -> Option<FileAt>
    ensures { result ≡ file_from image.now from }
{
    let found = search(image, from, false, false);
    let Some(part) = found.part else {
        return None;
    };
    let Part::File(hdr1, hdr2) = part else {
        return None;
    };
    Some(file_at(image, hdr1, hdr2))
}

// The first file of an image, if it has one, whatever its bytes.
pub fn first_file(image: &[u8]) -> Option<FileAt>
    ensures { Said file_of result (first_file image.now) }
{
    let from = Position {
        at: 5,
        hdr1: image.len(),
        phase: Phase::Reel,
        continues: false,
    };
    file_from(image, from)
}

// The file behind the one with its HDR1 and HDR2 at these places, be they right or forged. Nothing stands behind an HDR2 that
// runs past the image.
pub fn next_file(image: &[u8], hdr1: usize, hdr2: usize) -> Option<FileAt>
    ensures { Said file_of result (next_file image.now hdr1 hdr2) }
{
    if image.len() < hdr2 {
        return None;
    }
    if image.len() - hdr2 < 80 {
        return None;
    }
    let at = hdr2 + 80;
    let from = Position {
        at,
        hdr1,
        phase: Phase::Header(2),
        continues: false,
    };
    file_from(image, from)
}

// The file behind the one with its HDR1 at this place, from a place between two items of its data on, be they right or forged.
pub fn file_behind(image: &[u8], hdr1: usize, at: usize) -> Option<FileAt>
    ensures { Said file_of result (file_behind image.now hdr1 at) }
{
    let from = Position {
        at,
        hdr1,
        phase: Phase::Data,
        continues: false,
    };
    file_from(image, from)
}

// The file so many files behind one, if there are so many.
fn files_on(image: &[u8], from: FileAt, files: u64) -> Option<FileAt>
    ensures { result ≡ files_on image.now files from }
{
    let mut left = files;
    let mut f = from;
    while 0 < left {
        let Some(next) = next_file(image, f.hdr1, f.hdr2) else {
            return None;
        };
        f = next;
        left -= 1;
    }
    Some(f)
}

// File n, from 1, if there is one.
pub(crate) fn file_numbered(image: &[u8], n: u64) -> Option<FileAt>
    ensures { result ≡ file_numbered image.now n }
{
    if n == 0 {
        return None;
    }
    let Some(first) = first_file(image) else {
        return None;
    };
    files_on(image, first, n - 1)
}
