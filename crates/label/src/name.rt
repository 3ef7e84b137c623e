// The names of labels: which kind a block is, by its length and its first four bytes. It knows nothing of the fields behind them.
ghost use Rattle.std.specs.Prelude.{◌≡◌, ◌≤◌, ◌-◌};
ghost use Rattle.order.specs.Kind.{kind};
ghost use Rattle.label.specs.Name.{required, family, numbered, optional, or_else, named, kind_of};

use super::field::byte_or;
use base::{equal, part_of};
use order::{EOF, EOV, HDR, Kind, OTHER, UHL, UTL, UVL, VOL, is};

fn of(family: u32, number: u32) -> Kind
    ensures { result ≡ kind family number }
{
    Kind { family, number }
}

// The labels that every set has, by the four bytes of their name.
fn required(n: &[u8]) -> Kind
    ensures { result ≡ required n.now }
{
    if equal(n, b"VOL1") {
        return of(VOL, 1);
    }
    if equal(n, b"HDR1") {
        return of(HDR, 1);
    }
    if equal(n, b"HDR2") {
        return of(HDR, 2);
    }
    if equal(n, b"EOV1") {
        return of(EOV, 1);
    }
    if equal(n, b"EOV2") {
        return of(EOV, 2);
    }
    if equal(n, b"EOF1") {
        return of(EOF, 1);
    }
    if equal(n, b"EOF2") {
        return of(EOF, 2);
    }
    of(OTHER, 0)
}

// Label number n of the family with this identifier.
fn family(i: &[u8], n: u32) -> Kind
    ensures { result ≡ family i.now n }
{
    if equal(i, b"VOL") {
        return of(VOL, n);
    }
    if equal(i, b"UVL") {
        return of(UVL, n);
    }
    if equal(i, b"HDR") {
        return of(HDR, n);
    }
    if equal(i, b"EOV") {
        return of(EOV, n);
    }
    if equal(i, b"EOF") {
        return of(EOF, n);
    }
    of(OTHER, 0)
}

// A label whose number is the character d, a digit 1 to 9.
fn numbered(i: &[u8], d: u8) -> Kind
    ensures { result ≡ numbered i.now d }
{
    if d < b'1' {
        return of(OTHER, 0);
    }
    if b'9' < d {
        return of(OTHER, 0);
    }
    family(i, (d - b'0') as u32)
}

// The labels that a set may have, by three bytes and the fourth; user labels by the three alone.
fn optional(i: &[u8], d: u8) -> Kind
    ensures { result ≡ optional i.now d }
{
    if equal(i, b"UHL") {
        return of(UHL, 0);
    }
    if equal(i, b"UTL") {
        return of(UTL, 0);
    }
    numbered(i, d)
}

// The first of two kinds that is one.
fn or_else(a: Kind, b: Kind) -> Kind
    ensures { result ≡ or_else a b }
{
    if is(a, OTHER, 0) {
        return b;
    }
    a
}

// The kind of a label of 80 bytes.
fn named(l: &[u8]) -> Kind
    ensures { result ≡ named l.now }
{
    or_else(
        required(part_of(l, 0, 4)),
        optional(part_of(l, 0, 3), byte_or(l, 3, 0)),
    )
}

// What a block is to the order of a reel, where a label is due.
pub fn kind(l: &[u8]) -> Kind
    ensures { result ≡ kind_of l.now }
{
    if l.len() != 80 {
        return of(OTHER, 0);
    }
    named(l)
}
