// One item written at a place of a lent buffer where it has room, in either form.
ghost use Rattle.std.specs.Prelude.{◌≡◌, ◌+◌, ◌%◌, ◌≤◌, ◌<◌, length};
ghost use Rattle.base.specs.Part.{put_at};
ghost use Rattle.image.specs.Item.{block, three, bytes_of as image_item};
ghost use Rattle.simh.specs.Tape.{four, pad, span_of, bytes_of};

use base::put_few;
use image::length_word;

// Writes the bytes of a word, few enough that the compiler takes them as one.
#[tactic(auto, using(base::proofs::Copies::copying))]
fn put_word<const N: usize>(out: &mut [u8], at: usize, word: &[u8; N])
    requires { at + N ≤ length out.old }
    ensures { out.new ≡ put_at out.old at word.now }
{
    for i in 0..N {
        out[at + i] = word[i];
    }
}

// A length word of an image. Short blocks come by the million, and all of them were measured: `image::put_length`, which asks for
// room, takes a twelfth longer over them.
pub(crate) fn put_three(out: &mut [u8], at: usize, n: usize)
    requires at_in_bounds { at + 3 ≤ length out.old }
    requires n_bound { n < 16777216 }
    ensures { out.new ≡ put_at out.old at (three n) }
{
    put_word(out, at, &length_word(n));
}

// A block of an image.
#[tactic(auto, using(crate::proofs::Words::puts))]
pub(crate) fn put_block(out: &mut [u8], at: usize, s: &[u8])
    requires s_in_bounds { at + 3 + length s.now ≤ length out.old }
    requires s_len_bound { length s.now < 16777216 }
    ensures { out.new ≡ put_at out.old at (image_item (block s.now)) }
{
    put_three(out, at, s.len());
    put_few(out, at + 3, s);
}

// A length word of a file: four bytes, the low byte first.
#[tactic(auto, unfolding(crate::specs::Tape::four))]
pub(crate) fn put_four(out: &mut [u8], at: usize, n: usize)
    requires at_in_bounds { at + 4 ≤ length out.old }
    requires n_bound { n < 4294967296 }
    ensures { out.new ≡ put_at out.old at (four n) }
{
    let word = [
        (n % 256) as u8,
        (n / 256 % 256) as u8,
        (n / 65536 % 256) as u8,
        (n / 16777216) as u8,
    ];
    put_word(out, at, &word);
}

// The pad byte of an odd count.
#[tactic(auto, using(crate::proofs::Words::puts))]
fn put_pad(out: &mut [u8], at: usize, n: usize)
    requires { at + n % 2 ≤ length out.old }
    ensures { out.new ≡ put_at out.old at (pad n) }
{
    if n % 2 != 0 {
        out[at] = 0;
    }
}

// A block of a file: its length before it and behind it, padded to an even count.
#[tactic(auto, using(crate::proofs::Words::puts))]
pub(crate) fn put_record(out: &mut [u8], at: usize, s: &[u8])
    requires s_in_bounds { at + span_of (length s.now) ≤ length out.old }
    requires s_len_bound { length s.now < 4294967296 }
    ensures { out.new ≡ put_at out.old at (bytes_of (block s.now)) }
{
    let n = s.len();
    put_four(out, at, n);
    put_few(out, at + 4, s);
    put_pad(out, at + 4 + n, n);
    put_four(out, at + 4 + n + n % 2, n);
}
