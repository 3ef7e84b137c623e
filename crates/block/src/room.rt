// The room in a block that is being filled: whether a record enters it, how much of it, and the indicator of that segment. It
// writes nothing.
ghost use Rattle.std.specs.Prelude.{◌≡◌, ◌+◌, ◌-◌, ◌≤◌, min, leb};
ghost use Rattle.block.specs.Room.{enters, taken, indicator_of};

use super::word_of;
use base::SEGMENTED;

// The most bytes of a segment beside its control word.
const MOST_SEGMENT: usize = 9994;

// The smaller of two numbers.
pub fn smaller(a: usize, b: usize) -> usize
    ensures { result ≡ min a b }
{
    if a <= b {
        return a;
    }
    b
}

// The bytes that are free in a block of b bytes behind u used ones and a control word of w.
fn room(b: usize, u: usize, w: usize) -> usize
    ensures { result ≡ b - u - w }
{
    if b <= u {
        return 0;
    }
    if b - u <= w {
        return 0;
    }
    b - u - w
}

// Whether a control word of w bytes and m more have room in a block of b bytes behind u used ones.
fn has_room(b: usize, u: usize, w: usize, m: usize) -> bool
    ensures { result ≡ leb (u + w + m) b }
{
    if b < u {
        return false;
    }
    if b - u < w {
        return false;
    }
    if b - u - w < m {
        return false;
    }
    true
}

// Whether a record of which n bytes remain enters a block of at most b bytes with u of them used.
pub fn enters(f: u8, b: usize, u: usize, n: usize) -> bool
    ensures { result ≡ enters f b u n }
{
    if f == SEGMENTED {
        return has_room(b, u, 5, smaller(1, n));
    }
    has_room(b, u, word_of(f as u32), n)
}

// How many of its bytes go into the block.
pub fn taken(f: u8, b: usize, u: usize, n: usize) -> usize
    ensures { result ≡ taken f b u n }
{
    if f == SEGMENTED {
        return smaller(n, smaller(room(b, u, 5), MOST_SEGMENT));
    }
    n
}

// The indicator of a segment of k bytes of n that remain, as its byte.
pub fn indicator(begun: u8, k: usize, n: usize) -> u8
    ensures { result ≡ 48 + indicator_of begun k n }
{
    if k == n {
        if begun == 0 {
            return b'0';
        }
        return b'3';
    }
    if begun == 0 {
        return b'1';
    }
    b'2'
}
