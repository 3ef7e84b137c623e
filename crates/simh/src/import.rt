// In: the files of a set are checked, one after the other, and written as an image. Nothing is written before all of them are
// found right and have room.
ghost use Rattle.std.specs.Prelude.{◌≡◌, ◌+◌, ◌<◌, length};
ghost use Rattle.base.specs.Sum.{sum};
ghost use Rattle.base.specs.Part.{put_at};
ghost use Rattle.image.specs.Item.{encode as image_bytes};
ghost use Rattle.output.specs.Output.{AnswersAt};
ghost use Rattle.simh.specs.Set.{torn, reel_verdict, reels_verdict, reels_in, is_few, tape_verdict, from_simh};
ghost use Rattle.simh.specs.Code.Passes.{Answered, Scanned, Measured, FittingItems, Storable, items_in};
ghost use Rattle.simh.specs.Tape.{decode};

use crate::put::{put_block, put_three};
use crate::tape::{END_WORD, shape_at, span, word_at};
use base::{Verdict, add_up_to};
use image::{REEL_END_WORD, Shape};
use output::{Written, done, refusal, refused};

// An image has at most so many bytes behind its head, and a set so many files.
const MOST_BEHIND: usize = 16777210;

const MOST_FILES: usize = 16;

// The most that a place can say.
const MOST_PLACE: usize = 4294967295;

// ---- the check

// What one file holds in which nothing is wrong: the number of the item behind its last, and the bytes of its items in an image.
#[derive(Clone, Copy)]
pub struct Scan {
    pub item: usize,
    pub len: usize,
}

// One file, whose first item has this number.
fn scan_reel(reel: &[u8], first: usize) -> Result<Scan, Verdict>
    requires { first + length reel.now < 18446744073709551616 }
    ensures { Answered (reel_verdict first (decode reel.now)) (Scanned first reel.now) result }
{
    let mut at: usize = 0;
    let mut item = first;
    let mut len: usize = 0;
    // Kept by hand: each item says where the next stands; an iterator over them would be this loop, with a contract of its own.
    while at < reel.len() {
        match shape_at(reel, at) {
            Shape::Block(n) => {
                at += span(n);
                item += 1;
                len = len + 3 + n;
            }
            Shape::Mark => {
                at += 4;
                item += 1;
                len += 3;
            }
            Shape::ReelEnd => {
                if at + 4 < reel.len() {
                    return Err(torn_at(item + 1));
                }
                return Ok(Scan {
                    item: item + 1,
                    len: len + 3,
                });
            }
            Shape::Broken => return Err(torn_at(item)),
        }
    }
    Err(torn_at(item))
}

// 15 at an item.
#[tactic(auto, using(crate::proofs::Scanning::torn_place))]
fn torn_at(item: usize) -> Verdict
    ensures { result ≡ torn item }
{
    let place = if item < MOST_PLACE { item } else { MOST_PLACE };
    Verdict::at(15, place as u32)
}

// All files, which their lengths tell, by the bytes of their items in an image.
fn measure_reels(tape: &[u8], lengths: &[u64]) -> Result<usize, Verdict>
    requires { sum lengths.now ≡ length tape.now }
    ensures { Answered (reels_verdict 0 (reels_in tape.now lengths.now)) (Measured tape.now lengths.now) result }
{
    let mut from: usize = 0;
    let mut item: usize = 0;
    let mut len: usize = 0;
    for n in lengths {
        let end = from + *n as usize;
        let s = match scan_reel(&tape[from..end], item) {
            Ok(s) => s,
            Err(v) => return Err(v),
        };
        from = end;
        item = s.item;
        len += s.len;
    }
    Ok(len)
}

// Whether a set has as many files.
#[tactic(auto, unfolding(crate::specs::Set::is_few))]
fn is_few(n: usize) -> bool
    ensures { result ≡ is_few n }
{
    1 <= n && n <= MOST_FILES
}

// 15 for the lengths, then for what stands in the files, then 2; or the bytes of their items in an image.
#[tactic(auto, using(crate::proofs::Measuring::checks))]
fn check(tape: &[u8], lengths: &[u64]) -> Result<usize, Verdict>
    ensures { Answered (tape_verdict tape.now lengths.now) (Measured tape.now lengths.now) result }
{
    if !add_up_to(lengths, tape.len()) {
        return Err(Verdict::at(15, 0));
    }
    let len = match measure_reels(tape, lengths) {
        Ok(len) => len,
        Err(v) => return Err(v),
    };
    if !is_few(lengths.len()) {
        return Err(Verdict::at(2, 0));
    }
    Ok(len)
}

// ---- the image

// Writes the items of one file, in which nothing is wrong, and gives the place behind them.
#[tactic(auto, using(crate::proofs::Storing::fills))]
fn put_reel(reel: &[u8], out: &mut [u8], to: usize) -> usize
    requires { FittingItems (decode reel.now) (length out.old) to }
    ensures value { result ≡ to + length (image_bytes (decode reel.now)) }
    ensures out_after { out.new ≡ put_at out.old to (image_bytes (decode reel.now)) }
{
    let mut at: usize = 0;
    let mut place = to;
    // Kept by hand: each item says where the next stands; an iterator over them would be this loop, with a contract of its own.
    while at < reel.len() {
        let n = word_at(reel, at);
        if n == 0 {
            put_three(out, place, 0);
            at += 4;
            place += 3;
        } else if n == END_WORD {
            put_three(out, place, REEL_END_WORD);
            at += 4;
            place += 3;
        } else {
            let from = at + 4;
            let end = from + n;
            put_block(out, place, &reel[from..end]);
            at += span(n);
            place = place + 3 + n;
        }
    }
    place
}

// Writes the items of all files behind the head of an image.
#[tactic(auto, using(crate::proofs::Storing::stores))]
fn put_reels(tape: &[u8], lengths: &[u64], out: &mut [u8])
    requires { Storable tape.now lengths.now (length out.old) }
    ensures { out.new ≡ put_at out.old 5 (image_bytes (items_in tape.now lengths.now)) }
{
    let mut from: usize = 0;
    let mut to: usize = 5;
    for n in lengths {
        let end = from + *n as usize;
        to = put_reel(&tape[from..end], out, to);
        from = end;
    }
}

// Converts a set of tape files, one a reel, which stand end to end and have these lengths, into an image at the front of a lent
// buffer: 15 with its item, then 2, 14 and 10 with place 0. The papers leave free what 15 says of an item past number
// 4,294,967,295, which takes a buffer of over 16 GiB: that number.
pub fn from_simh(tape: &[u8], lengths: &[u64], out: &mut [u8]) -> Written
    ensures { AnswersAt (from_simh tape.now lengths.now out.old) result out.new }
{
    let behind = match check(tape, lengths) {
        Ok(len) => len,
        Err(verdict) => return refused(verdict),
    };
    if MOST_BEHIND < behind {
        return refusal(14);
    }
    let len = behind + 5;
    if out.len() < len {
        return refusal(10);
    }
    base::put_in(out, 0, b"TGI\0\x01");
    put_reels(tape, lengths, out);
    done(len)
}
