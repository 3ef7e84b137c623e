// The one walk over the rows of a table: judging a label, comparing two and finding the field of a byte differ in what is asked
// of a field.
ghost use Rattle.std.specs.Prelude.{◌≡◌, ◌≤◌, ◌<◌, length};
ghost use Rattle.base.specs.Part.{part, same};
ghost use Rattle.label.specs.Code.Asked.{asked};
ghost use Rattle.label.specs.Judged.{first_bad, agree_at, ends_before};
ghost use Rattle.label.specs.Table.{fields_of};

use super::field::good_at;
use super::table::{DIGITS, HDR2, USER, VOL1, ZEROS, first};
use base::{equal, part_of, wide};
use order::{EOF, EOV, HDR, Kind, UHL, UTL, VOL, is};

// What is asked of each field: that it suits its rule; that it is the same in both labels, where it is one in this scope; that it
// ends before this BP.
#[derive(Clone, Copy)]
pub(crate) enum Ask {
    Suits,
    Agrees(u8),
    Ends(u32),
}

// Whether the w bytes at a place are the same in both labels.
fn same_part(a: &[u8], b: &[u8], at: usize, w: usize) -> bool
    ensures { result ≡ same (part at w a.now) (part at w b.now) }
{
    equal(part_of(a, at, w), part_of(b, at, w))
}

// Whether they are, where they are to be.
fn agree_at(n: u8, a: &[u8], b: &[u8], rule: u8, scope: u8, at: usize, w: usize) -> bool
    ensures { result ≡ agree_at n a.now b.now rule scope at w }
{
    if n <= scope {
        return same_part(a, b, at, w);
    }
    true
}

// Whether a field of w bytes at a place ends before BP b.
fn ends_before(b: u32, rule: u8, scope: u8, at: usize, w: usize) -> bool
    requires at_bound { at ≤ 16384 }
    requires w_bound { w < 256 }
    ensures { result ≡ ends_before b rule scope at w }
{
    at + w < b as usize
}

// Whether a field is as asked.
fn holds(ask: Ask, l: &[u8], m: &[u8], rule: u8, scope: u8, at: usize, w: usize) -> bool
    requires at_bound { at ≤ 16384 }
    requires w_bound { w < 256 }
    ensures { result ≡ asked ask l.now m.now rule scope at w }
{
    match ask {
        Ask::Suits => good_at(l, rule, scope, at, w),
        Ask::Agrees(n) => agree_at(n, l, m, rule, scope, at, w),
        Ask::Ends(b) => ends_before(b, rule, scope, at, w),
    }
}

// The first BP of the first field of a table that is not as asked, or 0.
pub(crate) fn first_bad(table: &[u8], ask: Ask, l: &[u8], m: &[u8]) -> u32
    requires { length table.now ≤ 64 }
    ensures { result ≡ first_bad (asked ask l.now m.now) 0 table.now }
{
    let mut at: usize = 0;
    let mut i = 0;
    while i + 2 < table.len() {
        let w = wide(table[i]);
        if holds(ask, l, m, table[i + 1], table[i + 2], at, w) {
            at += w;
            i += 3;
        } else {
            return at as u32 + 1;
        }
    }
    0
}

// The same by the table of the label's kind; the labels that have none are free.
pub(crate) fn first_bad_of(k: Kind, ask: Ask, l: &[u8], m: &[u8]) -> u32
    ensures { result ≡ first_bad (asked ask l.now m.now) 0 (fields_of k) }
{
    if is(k, VOL, 1) {
        return first_bad(&VOL1, ask, l, m);
    }
    if is(k, HDR, 1) {
        return first_bad(&first(ZEROS), ask, l, m);
    }
    if is(k, EOV, 1) {
        return first_bad(&first(DIGITS), ask, l, m);
    }
    if is(k, EOF, 1) {
        return first_bad(&first(DIGITS), ask, l, m);
    }
    if is(k, HDR, 2) {
        return first_bad(&HDR2, ask, l, m);
    }
    if is(k, EOV, 2) {
        return first_bad(&HDR2, ask, l, m);
    }
    if is(k, EOF, 2) {
        return first_bad(&HDR2, ask, l, m);
    }
    if is(k, UHL, 0) {
        return first_bad(&USER, ask, l, m);
    }
    if is(k, UTL, 0) {
        return first_bad(&USER, ask, l, m);
    }
    0
}
