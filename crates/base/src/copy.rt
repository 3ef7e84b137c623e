// Bytes written into a lent buffer, where they have room. Records come by the million, most of them short: a loop over a few
// bytes asks at run time whether the two parts overlap, and ends byte by byte, so they go as words, of which the last may meet
// the one before. The attributes keep short writes at their callers and long ones a call: without them a write of six bytes takes a
// third more instructions.
ghost use Rattle.std.specs.Prelude.{◌≡◌, ◌+◌, ◌≤◌, ◌<◌, length, leb};
ghost use Rattle.base.specs.Part.{part, put_at, put_in};
ghost use Rattle.base.specs.Code.Copy.{Short, Chunked};

// ---- some bytes, at a place where they have room

// Writes s byte by byte.
#[tactic(auto, using(crate::proofs::Copies::copying))]
fn copy_to(out: &mut [u8], at: usize, s: &[u8])
    requires { at + length s.now ≤ length out.old }
    ensures { out.new ≡ put_at out.old at s.now }
{
    for i in 0..s.len() {
        out[at + i] = s[i];
    }
}

// N bytes of s from a place on; the compiler takes few as one word.
#[tactic(auto, using(crate::proofs::Copies::word_copied))]
fn word_of<const N: usize>(s: &[u8], from: usize) -> [u8; N]
    requires { from + N ≤ length s.now }
    ensures { result ≡ part from N s.now }
{
    let mut word = [0; N];
    copy_to(&mut word, 0, &s[from..from + N]);
    word
}

// Writes N bytes of s from a place on.
fn put_part<const N: usize>(out: &mut [u8], at: usize, s: &[u8], from: usize)
    requires from_in_bounds { from + N ≤ length s.now }
    requires at_in_bounds { at + N ≤ length out.old }
    ensures { out.new ≡ put_at out.old at (part from N s.now) }
{
    let word: [u8; N] = word_of(s, from);
    copy_to(out, at, &word);
}

// Writes 64 bytes of s from a place on, a word of 16 at a time: as one word they would all be read before the first is written.
#[tactic(auto, using(crate::proofs::Copies::words))]
fn put_64(out: &mut [u8], at: usize, s: &[u8], from: usize)
    requires from_in_bounds { from + 64 ≤ length s.now }
    requires at_in_bounds { at + 64 ≤ length out.old }
    ensures { out.new ≡ put_at out.old at (part from 64 s.now) }
{
    put_part::<16>(out, at, s, from);
    put_part::<16>(out, at + 16, s, from + 16);
    put_part::<16>(out, at + 32, s, from + 32);
    put_part::<16>(out, at + 48, s, from + 48);
}

// Writes s as its first V bytes and its last W, which may meet.
fn copy_by<const V: usize, const W: usize>(out: &mut [u8], at: usize, s: &[u8])
    requires short { Short V W (length s.now) }
    requires s_in_bounds { at + length s.now ≤ length out.old }
    ensures { out.new ≡ put_at out.old at s.now }
{
    let behind = s.len() - W;
    put_part::<V>(out, at, s, 0);
    put_part::<W>(out, at + behind, s, behind);
}

// ---- by length

// Writes less than 16 bytes.
#[inline(always)]
fn copy_few(out: &mut [u8], at: usize, s: &[u8])
    requires s_len_bound { length s.now < 16 }
    requires s_in_bounds { at + length s.now ≤ length out.old }
    ensures { out.new ≡ put_at out.old at s.now }
{
    if s.len() < 4 {
        copy_to(out, at, s);
        return;
    }
    if s.len() < 8 {
        copy_by::<4, 4>(out, at, s);
        return;
    }
    copy_by::<8, 8>(out, at, s);
}

// Writes 16 to 96 bytes.
fn copy_some(out: &mut [u8], at: usize, s: &[u8])
    requires in_bounds { 16 ≤ length s.now }
    requires s_len_bound { length s.now ≤ 96 }
    requires s_in_bounds { at + length s.now ≤ length out.old }
    ensures { out.new ≡ put_at out.old at s.now }
{
    if s.len() < 32 {
        copy_by::<16, 16>(out, at, s);
        return;
    }
    if s.len() < 64 {
        copy_by::<32, 32>(out, at, s);
        return;
    }
    copy_by::<64, 32>(out, at, s);
}

// Writes the first 64 bytes of s, and 64 from where the places become multiples of 16 on: a write across two lines of the cache
// takes longer. Says how many bytes are written.
#[tactic(auto, using(crate::proofs::Copies::chunked_two))]
fn put_first(out: &mut [u8], at: usize, s: &[u8]) -> usize
    requires in_bounds { 128 ≤ length s.now }
    requires s_in_bounds { at + length s.now ≤ length out.old }
    ensures { Chunked out.old at s.now out.new result }
{
    let step = 16 - at % 16;
    put_64(out, at, s, 0);
    put_64(out, at + step, s, step);
    step + 64
}

// Writes s, of which the first `from` bytes are written: 64 at a time, and the last 64, which may meet those before.
#[tactic(auto, using(crate::proofs::Copies::chunks))]
fn put_words(out: &mut [u8], at: usize, s: &[u8], from: usize)
    requires { Chunked out.old at s.now out.old from }
    ensures { out.new ≡ put_at out.old at s.now }
{
    let behind = s.len() - 64;
    let mut i = from;
    // By hand: a `for` over `(from..behind).step_by(64)` takes a third more instructions over 5,000 bytes, and a fifth more time.
    while i < behind {
        put_64(out, at + i, s, i);
        i += 64;
    }
    put_64(out, at + behind, s, behind);
}

// Writes 128 bytes or more.
#[tactic(auto, using(crate::proofs::Copies::chunked_again))]
fn copy_many(out: &mut [u8], at: usize, s: &[u8])
    requires in_bounds { 128 ≤ length s.now }
    requires s_in_bounds { at + length s.now ≤ length out.old }
    ensures { out.new ≡ put_at out.old at s.now }
{
    let from = put_first(out, at, s);
    put_words(out, at, s, from);
}

// Writes s.
fn copy(out: &mut [u8], at: usize, s: &[u8])
    requires { at + length s.now ≤ length out.old }
    ensures { out.new ≡ put_at out.old at s.now }
{
    if s.len() < FEW {
        copy_few(out, at, s);
        return;
    }
    if s.len() <= SOME {
        copy_some(out, at, s);
        return;
    }
    if s.len() < MANY {
        copy_by::<64, 64>(out, at, s);
        return;
    }
    copy_many(out, at, s);
}

// ---- what has room, or is not written

// Less than so many bytes are few, up to so many are some, and from so many on they are many.
const FEW: usize = 16;

const SOME: usize = 96;

const MANY: usize = 128;

// Whether n bytes have room at a place of a buffer of so many.
pub fn has_room(size: usize, at: usize, n: usize) -> bool
    ensures { result ≡ leb (at + n) size }
{
    n <= size && at <= size - n
}

// Writes s at a place if all of it has room there.
#[inline(never)]
#[tactic(auto, using(crate::proofs::Copies::roomy))]
pub fn put_in(out: &mut [u8], at: usize, s: &[u8])
    ensures { out.new ≡ put_in out.old at s.now }
{
    if has_room(out.len(), at, s.len()) {
        copy(out, at, s);
    }
}

// The same, for a caller who has most often less than 16 bytes, and many times: those are written where it is called.
#[inline(always)]
#[tactic(auto, using(crate::proofs::Copies::roomy))]
pub fn put_few(out: &mut [u8], at: usize, s: &[u8])
    ensures { out.new ≡ put_in out.old at s.now }
{
    if FEW <= s.len() {
        put_in(out, at, s);
        return;
    }
    if has_room(out.len(), at, s.len()) {
        copy_few(out, at, s);
    }
}

// Writes 16 to 96 bytes likewise.
#[inline(always)]
#[tactic(auto, using(crate::proofs::Copies::roomy))]
fn put_middling(out: &mut [u8], at: usize, s: &[u8])
    requires in_bounds { 16 ≤ length s.now }
    requires s_len_bound { length s.now ≤ 96 }
    ensures { out.new ≡ put_in out.old at s.now }
{
    if has_room(out.len(), at, s.len()) {
        copy_some(out, at, s);
    }
}

// The same, for a caller who has most often up to 96 bytes.
pub fn put_short(out: &mut [u8], at: usize, s: &[u8])
    ensures { out.new ≡ put_in out.old at s.now }
{
    if s.len() < FEW {
        put_few(out, at, s);
        return;
    }
    if SOME < s.len() {
        put_in(out, at, s);
        return;
    }
    put_middling(out, at, s);
}
