// The labels around the blocks of a section, as bytes of an image: those before its blocks, those behind them, and all that
// stands between two reels. It knows which items stand together, and nothing of when they are due.

#![tactic(auto)]

ghost use Rattle.std.specs.Prelude.{◌≡◌, [], ◌∷◌, ◌++◌};
ghost use Rattle.image.specs.Item.{block, mark, reel_end, encode};
ghost use Rattle.label.specs.Made.{made_volume};
ghost use Rattle.sections.specs.Section.{entry_in, sequence_in, set_in, headers, file_end, volume_end, image_head};
ghost use Rattle.sections.specs.Code.Pair.{pair_of};

use base::{part_of, put_few, put_in};
use label::{ENTRY, first_label, second_label, volume_label};

// What the labels of a file are made of, one behind the other: the file's entry, its number in the set, the set entry, and the
// names of the reels.
pub type Labels = [u8; 149];

// The place of the number behind the entry; the place of the set entry, and its bytes; the place of the names, and the bytes of
// each.
pub const SEQUENCE: usize = ENTRY;

pub const SET: usize = SEQUENCE + 1;

const SET_ENTRY: usize = 6;

pub const NAMES: usize = SET + SET_ENTRY;

pub const NAME: usize = 6;

// The bytes of a length word; of a label as an item; of two labels; of these and the mark behind them; of trailer labels and the
// marks around them; of the second mark and the end of a reel; of both; of these and the next volume label; and of all that
// stands between two reels.
const WORD: usize = 3;

const LABEL_ITEM: usize = WORD + 80;

const TWO_LABELS: usize = LABEL_ITEM + LABEL_ITEM;

pub const HEADERS: usize = TWO_LABELS + WORD;

pub const FILE_END: usize = WORD + HEADERS;

pub const REEL_END: usize = 6;

const VOLUME_END: usize = FILE_END + REEL_END;

const NEXT_REEL: usize = VOLUME_END + LABEL_ITEM;

pub const CHANGE: usize = NEXT_REEL + HEADERS;

// The bytes of the head of an image, and of that and the first volume label.
const IMAGE_HEAD: usize = 5;

pub const HEAD: usize = IMAGE_HEAD + LABEL_ITEM;

// A label as an item.
#[tactic(auto, using(crate::proofs::Filled::made))]
fn label_item(l: &[u8; 80]) -> [u8; LABEL_ITEM]
    ensures { result ≡ encode (block l.now ∷ []) }
{
    let mut made = [0u8; LABEL_ITEM];
    put_few(&mut made, 0, b"\0\0\x50");
    put_in(&mut made, WORD, l);
    made
}

// A file's two labels with those names, and the mark behind them.
fn pair(first: &[u8], second: &[u8], labels: &Labels, section: u32, count: u32) -> [u8; HEADERS]
    ensures { result ≡ encode (pair_of first.now second.now labels.now section count) }
{
    let entry = part_of(labels, 0, ENTRY);
    let set = part_of(labels, SET, SET_ENTRY);
    let sequence = labels[SEQUENCE] as u32;
    let l = label_item(&first_label(first, set, entry, section, sequence, count));
    let m = label_item(&second_label(second, entry));
    let mut made = [0u8; HEADERS];
    put_in(&mut made, 0, &l);
    put_in(&mut made, LABEL_ITEM, &m);
    put_few(&mut made, TWO_LABELS, b"\0\0\0");
    made
}

// A mark, a file's two trailer labels with those names, and a mark.
#[tactic(auto, using(crate::proofs::Filled::made))]
fn trailers(
    first: &[u8],
    second: &[u8],
    labels: &Labels,
    section: u32,
    count: u32,
) -> [u8; FILE_END]
    ensures { result ≡ encode (mark ∷ pair_of first.now second.now labels.now section count) }
{
    let behind = pair(first, second, labels, section, count);
    let mut made = [0u8; FILE_END];
    put_few(&mut made, 0, b"\0\0\0");
    put_in(&mut made, WORD, &behind);
    made
}

// The head of an image, and the volume label of its first reel.
#[tactic(auto, using(crate::proofs::Filled::made))]
pub fn image_head(name: &[u8]) -> [u8; HEAD]
    ensures { result ≡ image_head name.now }
{
    let l = label_item(&volume_label(name));
    let mut made = [0u8; HEAD];
    put_few(&mut made, 0, b"TGI\0\x01");
    put_in(&mut made, IMAGE_HEAD, &l);
    made
}

// HDR1, HDR2 and a mark.
#[tactic(auto, using(crate::proofs::Filled::made))]
pub fn headers(labels: &Labels, section: u32) -> [u8; HEADERS]
    ensures { result ≡ encode (headers (set_in labels.now) (entry_in labels.now) section (sequence_in labels.now)) }
{
    pair(b"HDR1", b"HDR2", labels, section, 0)
}

// A mark, EOF1, EOF2 and a mark.
#[tactic(auto, using(crate::proofs::Filled::made))]
pub fn file_end(labels: &Labels, section: u32, count: u32) -> [u8; FILE_END]
    ensures { result ≡ encode (file_end (set_in labels.now) (entry_in labels.now) section (sequence_in labels.now) count) }
{
    trailers(b"EOF1", b"EOF2", labels, section, count)
}

// The second mark behind the last labels of a reel, and the reel's end.
#[tactic(auto, using(crate::proofs::Filled::made))]
pub fn reel_end() -> [u8; REEL_END]
    ensures { result ≡ encode (mark ∷ reel_end ∷ []) }
{
    [0, 0, 0, 255, 255, 255]
}

// All that stands between the blocks of two sections: the end of one and of its reel, the next reel, of that name, and the
// beginning of the section with number `next`.
pub fn reel_change(
    labels: &Labels,
    section: u32,
    count: u32,
    name: &[u8],
    next: u32,
) -> [u8; CHANGE]
    ensures { result ≡ encode (volume_end (set_in labels.now) (entry_in labels.now) section (sequence_in labels.now) count ++ (block (made_volume name.now) ∷ headers (set_in labels.now) (entry_in labels.now) next (sequence_in labels.now))) }
{
    let end = trailers(b"EOV1", b"EOV2", labels, section, count);
    let over = reel_end();
    let volume = label_item(&volume_label(name));
    let begin = pair(b"HDR1", b"HDR2", labels, next, 0);
    let mut made = [0u8; CHANGE];
    put_in(&mut made, 0, &end);
    put_few(&mut made, FILE_END, &over);
    put_in(&mut made, VOLUME_END, &volume);
    put_in(&mut made, NEXT_REEL, &begin);
    made
}
