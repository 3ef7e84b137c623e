// The container of a set: items from bytes, and their length words. It knows lengths, and nothing of what a block holds.

#![tactic(auto)]

ghost use Rattle.std.specs.Prelude.{◌≡◌, false, ◌+◌, ◌-◌, ◌≤◌, ◌<◌, min, length, take, drop};
ghost use Rattle.base.specs.Part.{put_at, put_in, same};
ghost use Rattle.base.specs.Answer.{verdict};
ghost use Rattle.image.specs.Item.{led_by, word, shape, block_length, decode, three};
ghost use Rattle.image.specs.Framing.{most_image, most_reels, head, framed_from, framing_from, opens, framing};

use base::{Verdict, put_few, wide};

// The most bytes of a block, and the length word that ends a reel.
pub const MOST_BYTES: usize = 99999;

pub const REEL_END_WORD: usize = 16777215;

// An image is at most so many bytes, so it has no more items than that, and has at most so many reels.
const MOST_IMAGE: usize = 16777215;

const MOST_ITEMS: u32 = 16777215;

pub const MOST_REELS: usize = 16;

// What stands at a place of the image: a block and its length, a tape mark, the end of a reel, or a wrong length or an item cut
// short.
#[derive(Clone, Copy)]
pub enum Shape {
    Block(usize),
    Mark,
    ReelEnd,
    Broken,
}

// A place between two items: how many stand before it, how many of them ended a reel, and whether the last of them did.
#[derive(Clone, Copy)]
pub struct Frame {
    pub at: usize,
    pub reels: usize,
    pub item: u32,
    pub closed: bool,
}

// What `led` makes of the length word at a place and of how many bytes stand behind it; `cut` where fewer than three bytes are
// left, as past the end.
#[inline(always)]
fn at_word<T: Copy, F: Fn(usize, usize) -> T>(s: &[u8], at: usize, cut: T, led: &F) -> T
    requires { F.IsAlwaysCallable led.now }
    ensures cut { length s.now - at < 3 → result ≡ cut }
    ensures led { 3 ≤ length s.now - at → F.post led.now (word (drop at s.now)) (length s.now - at - 3) result }
{
    if s.len() <= at || s.len() - at < 3 {
        return cut;
    }
    let n = s.len() - at - 3;
    let low = wide(s[at + 1]) * 256 + wide(s[at + 2]);
    // Most lengths have a high byte 0: a test, which a walk need not wait for, takes the place of a sum.
    if s[at] == 0 {
        return led(low, n);
    }
    led(wide(s[at]) * 65536 + low, n)
}

// What a length word leads that has n bytes behind it.
#[tactic(auto, using(base::proofs::Rules::ifs), unfolding(crate::specs::Item::led_by))]
fn led_by(word: usize, n: usize) -> Shape
    ensures { result ≡ led_by word n }
{
    match word {
        0 => Shape::Mark,
        REEL_END_WORD => Shape::ReelEnd,
        _ if word <= MOST_BYTES && word <= n => Shape::Block(word),
        _ => Shape::Broken,
    }
}

// What stands at a place; where fewer than three bytes are left, as past the end, a cut item.
pub fn shape_at(s: &[u8], at: usize) -> Shape
    ensures { result ≡ shape (drop at s.now) }
{
    at_word(s, at, Shape::Broken, &led_by)
}

// The length of the block that a length word with n bytes behind it leads; 0 where it leads none.
#[tactic(auto, using(crate::proofs::Items::lengths))]
fn block_led_by(word: usize, n: usize) -> usize
    ensures { result ≡ block_length (led_by word n) }
{
    if MOST_BYTES < word {
        return 0;
    }
    if n < word {
        return 0;
    }
    word
}

// The length of the block that stands at a place; 0 where none does. A walk past millions of blocks needs no more than this
// number.
pub fn block_length_at(s: &[u8], at: usize) -> usize
    ensures { result ≡ block_length (shape (drop at s.now)) }
{
    at_word(s, at, 0, &block_led_by)
}

// Whether an image begins with its mark and version 1. It stays a call, once an image: five tests more in its callers cost their
// loops over items a register.
#[inline(never)]
#[tactic(auto, using(crate::proofs::Frames::head_first))]
fn has_head(s: &[u8]) -> bool
    ensures { result ≡ same (take 5 s.now) head }
{
    base::equal(base::part_of(s, 0, 5), b"TGI\0\x01")
}

// Whether an image is not too long and begins as one: all of its framing that can be told without walking its items.
#[tactic(auto, using(base::proofs::Rules::ifs), unfolding(crate::specs::Framing::opens))]
pub fn opens(s: &[u8]) -> bool
    ensures { result ≡ opens s.now }
{
    s.len() <= MOST_IMAGE && has_head(s)
}

// Number 2 with its item, or 0, over the items from a place on, in an image that is not too long.
#[tactic(auto, using(crate::proofs::Frames::walks))]
fn framed(s: &[u8], from: Frame) -> Verdict
    requires s_len_bound { length s.now ≤ most_image }
    requires item_le_most_image { from.item ≤ most_image }
    requires reels_le_most_reels { from.reels ≤ most_reels }
    ensures { result ≡ framed_from from.item from.reels from.closed (decode (drop from.at s.now)) }
{
    let mut at = from.at;
    let mut item = from.item;
    let mut reels = from.reels;
    let mut closed = from.closed;
    // Kept by hand: each item says where the next stands; an iterator over them would be this loop, with a contract of its own.
    while at < s.len() {
        if reels == MOST_REELS {
            return Verdict::at(2, item);
        }
        match shape_at(s, at) {
            Shape::Block(n) => {
                at = at + 3 + n;
                item += 1;
                closed = false;
            }
            Shape::Mark => {
                at += 3;
                item += 1;
                closed = false;
            }
            Shape::ReelEnd => {
                at += 3;
                item += 1;
                reels += 1;
                closed = true;
            }
            Shape::Broken => return Verdict::at(2, item),
        }
    }
    if closed {
        return Verdict::at(0, 0);
    }
    Verdict::at(2, item)
}

// The framing of what stands from a place on: 2 with its item, or 0; 9 where the image is too long, or more stands before the
// place than an image holds.
#[tactic(auto, using(base::proofs::Rules::ifs), unfolding(crate::specs::Framing::framing_from))]
pub fn framing_from(s: &[u8], from: Frame) -> Verdict
    ensures { result ≡ framing_from s.now from.at from.item from.reels from.closed }
{
    if MOST_IMAGE < s.len() {
        return Verdict::at(9, 0);
    }
    if MOST_ITEMS < from.item {
        return Verdict::at(9, 0);
    }
    if MOST_REELS < from.reels {
        return Verdict::at(9, 0);
    }
    framed(s, from)
}

// The framing of an image: 9, 1 or 2 with its item, or 0.
#[tactic(auto, using(base::proofs::Rules::ifs), unfolding(crate::specs::Framing::framing, crate::specs::Framing::items))]
pub fn framing(s: &[u8]) -> Verdict
    ensures { result ≡ framing s.now }
{
    if MOST_IMAGE < s.len() {
        return Verdict::at(9, 0);
    }
    if has_head(s) {
        let first = Frame {
            at: 5,
            reels: 0,
            item: 0,
            closed: false,
        };
        return framed(s, first);
    }
    Verdict::at(1, 0)
}

// A length as its word, three bytes, the high byte first; a length that no word can say as the largest that one can.
#[tactic(auto, unfolding(crate::specs::Item::three))]
pub fn length_word(n: usize) -> [u8; 3]
    ensures { result ≡ three (min n 16777215) }
{
    let said = if n < REEL_END_WORD { n } else { REEL_END_WORD };
    [
        (said / 65536) as u8,
        (said / 256 % 256) as u8,
        (said % 256) as u8,
    ]
}

// Writes such a word if it has room at its place.
pub fn put_length(out: &mut [u8], at: usize, n: usize)
    ensures { out.new ≡ put_in out.old at (three (min n 16777215)) }
{
    put_few(out, at, &length_word(n));
}
