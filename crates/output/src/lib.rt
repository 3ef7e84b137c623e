// The lent output buffer: bytes written at a place up to a limit, digits, and the answer on what was written. It knows nothing of
// what the bytes are.

#![tactic(auto)]

ghost use Rattle.std.specs.Prelude.{◌≡◌, ◌+◌, ◌*◌, ◌/◌, ◌%◌, ◌<◌, min};
ghost use Rattle.base.specs.Digits.{digits};
ghost use Rattle.output.specs.Output.{Put, refusal_of, written_of};

use base::{Verdict, put_in};

// What writing answers: the number given back, with its place, and the length of what was written, 0 with a refusal.
#[repr(C)]
#[derive(Clone, Copy)]
pub struct Written {
    pub verdict: Verdict,
    pub len: u64,
}

// A refusal with place 0.
#[tactic(auto, unfolding(crate::specs::Output::refusal_of))]
pub fn refusal(number: u32) -> Written
    ensures { result ≡ refusal_of number }
{
    refused(Verdict::at(number, 0))
}

// A refusal with its place.
pub fn refused(v: Verdict) -> Written
    ensures { result ≡ record { verdict = v; len = 0 } }
{
    Written { verdict: v, len: 0 }
}

// So many bytes are written.
#[tactic(auto, unfolding(crate::specs::Output::written_of))]
pub fn done(len: usize) -> Written
    ensures { result ≡ written_of len }
{
    Written {
        verdict: Verdict::at(0, 0),
        len: len as u64,
    }
}

// The place behind n bytes; places are counted up to `most`.
pub fn behind(at: usize, n: usize, most: usize) -> usize
    ensures { result ≡ min (at + n) most }
{
    if most <= at || most - at <= n {
        return most;
    }
    at + n
}

// Writes s at a place if all of it has room there before place `most`, and gives the place behind.
#[tactic(auto, using(crate::proofs::Writing::put_most))]
pub fn put_bytes(out: &mut [u8], at: usize, s: &[u8], most: usize) -> usize
    ensures { Put most out.old at s.now out.new result }
{
    let end = behind(at, s.len(), most);
    if end < most {
        put_in(out, at, s);
    }
    end
}

// The hundreds of a number below 10,000 and, 16 bits further up, what they leave of it. The product is a hundredth, rounded down.
#[tactic(auto, using(crate::proofs::Writing::figures))]
fn halves(n: u32) -> u32
    requires { n < 10000 }
    ensures { result ≡ n / 100 + n % 100 * 65536 }
{
    let high = n * 5243 / 524288;
    high + (n - high * 100) * 65536
}

// The tens of both halves, where they stand, by one product, which is a tenth of each, rounded down.
#[tactic(auto, using(crate::proofs::Writing::figures))]
fn tens_of(both: u32) -> u32
    requires both_bound { both % 65536 < 100 }
    requires both_bound_2 { both / 65536 < 100 }
    ensures { result ≡ both % 65536 / 10 + both / 65536 / 10 * 65536 }
{
    let parts = both * 103 / 1024;
    parts % 16 + parts / 65536 * 65536
}

// The four digits of a number below 10,000; a larger one counts as 9,999. They are found side by side in one word, since a
// control word is written for each of millions of records.
#[tactic(auto, using(crate::proofs::Writing::figures))]
pub fn figures(n: usize) -> [u8; 4]
    ensures { result ≡ digits 4 (min n 9999) }
{
    let counted = if n < 9999 { n as u32 } else { 9999 };
    let both = halves(counted);
    let word = both * 256 - tens_of(both) * 2559 + 808464432;
    [
        (word % 256) as u8,
        (word / 256 % 256) as u8,
        (word / 65536 % 256) as u8,
        (word / 16777216) as u8,
    ]
}

// The last four digits of a number.
#[tactic(auto, using(crate::proofs::Writing::figures))]
pub fn four_digits(n: usize) -> [u8; 4]
    ensures { result ≡ digits 4 n }
{
    figures(n % 10000)
}
