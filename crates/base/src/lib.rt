// What every layer answers with, the two questions that every layer asks of byte strings, whether numbers that a caller gave add
// up, and how bytes get into a lent buffer. It knows no rule of a label, a block or an image.

#![tactic(auto)]

mod copy; // copy.rt: bytes into a lent buffer

ghost use Rattle.std.specs.Prelude.{◌≡◌, ◌<◌, eqb};
ghost use Rattle.base.specs.Part.{part, same};
ghost use Rattle.base.specs.Sum.{sum};
ghost use Rattle.base.specs.Answer.{verdict};

pub use copy::{has_room, put_few, put_in, put_short};

// The record formats, as HDR2 has them.
pub const FIXED: u8 = b'F';

pub const VARIABLE: u8 = b'D';

pub const SEGMENTED: u8 = b'S';

// A fault of one item: the number given back, 0 for none, and the first byte position of the wrong field, or 0.
#[derive(Clone, Copy)]
pub struct Fault {
    pub number: u32,
    pub byte: u32,
}

// The answer on an image: the number given back, 0 for done, the item and the byte position in its label.
#[repr(C)]
#[derive(Clone, Copy)]
pub struct Verdict {
    pub number: u32,
    pub item: u32,
    pub byte: u32,
}

impl Verdict {
    // A number at an item, with no byte of its own.
    #[tactic(auto, unfolding(crate::specs::Answer::verdict))]
    pub fn at(number: u32, item: u32) -> Verdict
        ensures { result ≡ verdict number item 0 }
    {
        Verdict {
            number,
            item,
            byte: 0,
        }
    }
}

// A byte as a number.
pub fn wide(b: u8) -> usize
    ensures { (result ≡ b) × (result < 256) }
{
    b as usize
}

// The n bytes of s from place a on, as many of them as there are.
#[tactic(auto, using(crate::proofs::Parts::ways))]
pub fn part_of(s: &[u8], a: usize, n: usize) -> &[u8]
    ensures { result.now ≡ part a n s.now }
{
    if s.len() <= a {
        return &s[0..0];
    }
    if s.len() - a <= n {
        return &s[a..];
    }
    let e = a + n;
    &s[a..e]
}

// Whether two byte strings are the same.
#[tactic(auto, using(crate::proofs::Bytes::pieces))]
pub fn equal(a: &[u8], b: &[u8]) -> bool
    ensures { result ≡ same a.now b.now }
{
    if a.len() != b.len() {
        return false;
    }
    // By hand: where the first four bytes are the same `==` calls a function, for names of four too, of which the kind of a label
    // is told. This loop is unrolled over a name.
    for i in 0..a.len() {
        if a[i] != b[i] {
            return false;
        }
    }
    true
}

// Whether numbers add up to a total: each is taken from what is left over of it, so that nothing can overflow.
#[tactic(auto, using(crate::proofs::Sums::pieces))]
pub fn add_up_to(numbers: &[u64], total: usize) -> bool
    ensures { result ≡ eqb (sum numbers.now) total }
{
    let mut left = total as u64;
    for n in numbers {
        if left < *n {
            return false;
        }
        left -= *n;
    }
    left == 0
}
