// Text in the lent buffer: bytes and numbers written at a place, where they have room. It knows no line of a listing.
ghost use Rattle.std.specs.Prelude.{◌≡◌, ◌++◌};
ghost use Rattle.listing.specs.Code.Page.{DidPutPage};
ghost use Rattle.listing.specs.Decimal.{decimal};

use output::put_bytes;

// No buffer has so many bytes: places are counted up to here.
pub(crate) const ENDLESS: usize = 9223372036854775808;

// Writes s at a place if it has room, and gives the place behind.
pub(crate) fn put(out: &mut [u8], at: usize, s: &[u8]) -> usize
    ensures { DidPutPage out.old at s.now out.new result }
{
    put_bytes(out, at, s, ENDLESS)
}

// Writes the digits of a number, without leading zeros.
pub(crate) fn put_decimal(out: &mut [u8], at: usize, n: u64) -> usize
    ensures { DidPutPage out.old at (decimal n) out.new result }
{
    let mut digits = [b'0'; 20];
    let mut i: usize = 19;
    let mut rest = n;
    while 10 <= rest {
        digits[i] = b'0' + (rest % 10) as u8;
        rest /= 10;
        i -= 1;
    }
    digits[i] = b'0' + rest as u8;
    put(out, at, &digits[i..])
}

// Writes some words and a number.
pub(crate) fn put_number(out: &mut [u8], at: usize, words: &[u8], n: u64) -> usize
    ensures { DidPutPage out.old at (words.now ++ decimal n) out.new result }
{
    let behind = put(out, at, words);
    put_decimal(out, behind, n)
}
