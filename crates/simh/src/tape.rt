// One file, which is one reel: what stands at a place of it.
ghost use Rattle.std.specs.Prelude.{◌≡◌, ◌+◌, ◌%◌, ◌≤◌, length, drop};
ghost use Rattle.base.specs.Part.{part, all_are};
ghost use Rattle.image.specs.Item.{most_bytes};
ghost use Rattle.simh.specs.Tape.{word, span_of, is_whole, led_by, shape};

use base::wide;
use image::{MOST_BYTES, Shape};

// The length word that ends the medium.
pub(crate) const END_WORD: usize = 4294967295;

// The length word at a place: four bytes, the low byte first.
#[tactic(auto, using(crate::proofs::Words::shapes))]
pub(crate) fn word_at(s: &[u8], at: usize) -> usize
    requires { at + 4 ≤ length s.now }
    ensures { result ≡ word (drop at s.now) }
{
    wide(s[at]) + wide(s[at + 1]) * 256 + wide(s[at + 2]) * 65536 + wide(s[at + 3]) * 16777216
}

// Whether the pad byte of a block of n bytes, which stands at a place, is 0; an even count has none.
#[tactic(auto, using(crate::proofs::Words::wholes))]
fn is_padded(s: &[u8], at: usize, n: usize) -> bool
    requires { at + n % 2 ≤ length s.now }
    ensures { result ≡ all_are 0 (part at (n % 2) s.now) }
{
    n % 2 == 0 || s[at] == 0
}

// The bytes of a block of n bytes in a file, with its two lengths and the pad byte.
pub(crate) fn span(n: usize) -> usize
    requires { n ≤ most_bytes }
    ensures { result ≡ span_of n }
{
    4 + n + n % 2 + 4
}

// Whether a block of n bytes that begins at a place is there to the end of its second length, which is n again, and is padded
// with 0.
#[tactic(auto, using(crate::proofs::Words::wholes))]
fn is_whole(s: &[u8], at: usize, n: usize) -> bool
    requires at_in_bounds { at ≤ length s.now }
    requires n_le_most_bytes { n ≤ most_bytes }
    ensures { result ≡ is_whole n (drop at s.now) }
{
    if s.len() - at < span(n) {
        return false;
    }
    let pad = at + 4 + n;
    is_padded(s, pad, n) && word_at(s, pad + n % 2) == n
}

// What a length word leads that stands at a place.
#[tactic(auto, using(base::proofs::Rules::ifs), unfolding(crate::specs::Tape::led_by))]
fn led_by(word: usize, s: &[u8], at: usize) -> Shape
    requires { at ≤ length s.now }
    ensures { result ≡ led_by word (drop at s.now) }
{
    match word {
        0 => Shape::Mark,
        END_WORD => Shape::ReelEnd,
        _ if word <= MOST_BYTES && is_whole(s, at, word) => Shape::Block(word),
        _ => Shape::Broken,
    }
}

// What stands at a place of a file; a word that its end cuts short is broken.
#[tactic(auto, using(crate::proofs::Words::shapes))]
pub(crate) fn shape_at(s: &[u8], at: usize) -> Shape
    ensures { result ≡ shape (drop at s.now) }
{
    if s.len() <= at || s.len() - at < 4 {
        return Shape::Broken;
    }
    led_by(word_at(s, at), s, at)
}
