// The judgement of one label by itself: its first wrong field, and its accessibility. It knows no other label.
ghost use Rattle.std.specs.Prelude.{◌≡◌, [], ◌∷◌};
ghost use Rattle.base.specs.Part.{part, same};
ghost use Rattle.label.specs.Judged.{wrong_in, access_of, access_at, field_fault, label_fault};
ghost use Rattle.label.specs.Table.{fields_of};

use super::rows::{Ask, first_bad_of};
use super::table::{FILE_ACCESS_BP, VOLUME_ACCESS_BP};
use base::{Fault, equal, part_of};
use order::{EOF, EOV, HDR, Kind, VOL, is};

// The first BP of the first field that does not suit its rule, or 0.
fn wrong_of(k: Kind, l: &[u8]) -> u32
    ensures { result ≡ wrong_in l.now (fields_of k) }
{
    first_bad_of(k, Ask::Suits, l, l)
}

// The BP of the accessibility of a kind of label, or 0 where it has none.
fn access_of(k: Kind) -> u32
    ensures { result ≡ access_of k }
{
    if is(k, VOL, 1) {
        return VOLUME_ACCESS_BP;
    }
    if is(k, HDR, 1) {
        return FILE_ACCESS_BP;
    }
    if is(k, EOV, 1) {
        return FILE_ACCESS_BP;
    }
    if is(k, EOF, 1) {
        return FILE_ACCESS_BP;
    }
    0
}

// Whether the byte at a place is SPACE.
fn space_at(l: &[u8], at: usize) -> bool
    ensures { result ≡ same (part at 1 l.now) (32 ∷ []) }
{
    equal(part_of(l, at, 1), b" ")
}

// The fault of an accessibility at BP a that is not SPACE.
fn access_at(a: u32, l: &[u8]) -> Fault
    ensures { result ≡ access_at a l.now }
{
    if a == 0 {
        return Fault { number: 0, byte: 0 };
    }
    if space_at(l, (a - 1) as usize) {
        return Fault { number: 0, byte: 0 };
    }
    Fault { number: 5, byte: a }
}

// Number 4 at the first wrong field, where there is one, before any other fault.
fn field_fault(w: u32, f: Fault) -> Fault
    ensures { result ≡ field_fault w f }
{
    if w == 0 {
        return f;
    }
    Fault { number: 4, byte: w }
}

// The fault of a label of this kind by itself: 4 at the first wrong field, else 5, else 0.
pub fn label_fault(k: Kind, l: &[u8]) -> Fault
    ensures { result ≡ label_fault k l.now }
{
    field_fault(wrong_of(k, l), access_at(access_of(k), l))
}
