// The fields of a label: those that other layers read by name, and the rules of what a field may hold.
// It knows no table: which field has which rule is not said here.
ghost use Rattle.std.specs.Prelude.{◌≡◌, leb, get_or};
ghost use Rattle.base.specs.Part.{all_are};
ghost use Rattle.charset.specs.Number.{number_in};
ghost use Rattle.label.specs.Field.{volume_of, set_of, section_of, sequence_of, count_of, format_of, block_length_of, record_length_of, offset_of};
ghost use Rattle.label.specs.Field.{least_record, suits, suits_both, is_length, is_record_length, has_record_length, is_positive, is_format, good};
ghost use Rattle.label.specs.Judged.{good_at};

use super::table;
use base::{SEGMENTED, VARIABLE, equal, part_of};
use charset::{all_characters, all_digits, date, number_in};

// The byte at a place, or another one behind the end.
pub(crate) fn byte_or(s: &[u8], at: usize, other: u8) -> u8
    ensures { result ≡ get_or s.now at other }
{
    if at < s.len() {
        return s[at];
    }
    other
}

// VOL1: the volume identifier.
pub fn volume_of(l: &[u8]) -> &[u8]
    ensures { result.now ≡ volume_of l.now }
{
    part_of(l, table::VOLUME, table::VOLUME_WIDTH)
}

// HDR1, EOV1 and EOF1: the set identifier.
pub fn set_of(l: &[u8]) -> &[u8]
    ensures { result.now ≡ set_of l.now }
{
    part_of(l, table::SET, table::SET_WIDTH)
}

// HDR1, EOV1 and EOF1: the section number.
pub fn section_of(l: &[u8]) -> Option<u32>
    ensures { result ≡ section_of l.now }
{
    number_in(part_of(l, table::SECTION, table::SECTION_WIDTH))
}

// HDR1, EOV1 and EOF1: the sequence number.
pub fn sequence_of(l: &[u8]) -> Option<u32>
    ensures { result ≡ sequence_of l.now }
{
    number_in(part_of(l, table::SEQUENCE, table::SEQUENCE_WIDTH))
}

// HDR1, EOV1 and EOF1: the block count.
pub fn count_of(l: &[u8]) -> Option<u32>
    ensures { result ≡ count_of l.now }
{
    number_in(part_of(l, table::COUNT, table::COUNT_WIDTH))
}

// HDR2, EOV2 and EOF2: the record format.
pub fn format_of(l: &[u8]) -> u8
    ensures { result ≡ format_of l.now }
{
    byte_or(l, table::RECORD_FORMAT, 0)
}

// HDR2, EOV2 and EOF2: the block length B.
pub fn block_length(l: &[u8]) -> Option<u32>
    ensures { result ≡ block_length_of l.now }
{
    number_in(part_of(l, table::BLOCK_LENGTH, table::BLOCK_LENGTH_WIDTH))
}

// HDR2, EOV2 and EOF2: the record length R.
pub fn record_length(l: &[u8]) -> Option<u32>
    ensures { result ≡ record_length_of l.now }
{
    number_in(part_of(l, table::SIZE, table::SIZE_WIDTH))
}

// HDR2, EOV2 and EOF2: the offset length O.
pub fn offset_length(l: &[u8]) -> Option<u32>
    ensures { result ≡ offset_of l.now }
{
    number_in(part_of(l, table::OFFSET, table::OFFSET_WIDTH))
}

// Whether every byte is b.
fn all_are(b: u8, s: &[u8]) -> bool
    ensures { result ≡ all_are b s.now }
{
    for x in s {
        if *x != b {
            return false;
        }
    }
    true
}

// Whether a number is 1 or more, and whether a field holds such a number.
fn is_positive(n: Option<u32>) -> bool
    ensures { result ≡ is_positive n }
{
    match n {
        Some(v) => 1 <= v,
        None => false,
    }
}

fn holds_positive(f: &[u8]) -> bool
    ensures { result ≡ is_positive (number_in f.now) }
{
    is_positive(number_in(f))
}

// Whether a field is F, D or S.
fn is_format(f: &[u8]) -> bool
    ensures { result ≡ is_format f.now }
{
    equal(f, b"F") || (equal(f, b"D") || equal(f, b"S"))
}

// Whether R is at least what its format asks: in a D file it counts the control word, and a byte more.
fn is_enough(f: u8, r: u32) -> bool
    ensures { result ≡ leb (least_record f) r }
{
    if f == VARIABLE {
        return 5 <= r;
    }
    1 <= r
}

// Whether R suits B and O. They are summed at 64 bits, where no sum of theirs can wrap.
fn suits(f: u8, b: u32, r: u32, o: u32) -> bool
    ensures { result ≡ suits f b r o }
{
    if f == SEGMENTED {
        return o as u64 + 6 <= b as u64;
    }
    r as u64 + o as u64 <= b as u64
}

// The same where B and O are numbers.
fn suits_both(f: u8, b: Option<u32>, r: u32, o: Option<u32>) -> bool
    ensures { result ≡ suits_both f b r o }
{
    let Some(bv) = b else {
        return true;
    };
    let Some(ov) = o else {
        return true;
    };
    suits(f, bv, r, ov)
}

// Whether R is good by itself, and against B and O.
fn is_length(f: u8, b: Option<u32>, r: u32, o: Option<u32>) -> bool
    ensures { result ≡ is_length f b r o }
{
    if is_enough(f, r) {
        return suits_both(f, b, r, o);
    }
    false
}

// The same, if R is a number.
fn is_record_length(f: u8, b: Option<u32>, r: Option<u32>, o: Option<u32>) -> bool
    ensures { result ≡ is_record_length f b r o }
{
    match r {
        Some(v) => is_length(f, b, v, o),
        None => false,
    }
}

// Whether a label's record length is good.
fn has_record_length(l: &[u8]) -> bool
    ensures { result ≡ has_record_length l.now }
{
    is_record_length(
        format_of(l),
        block_length(l),
        record_length(l),
        offset_length(l),
    )
}

// Whether field f of label l suits a rule.
fn suits_rule(rule: u8, l: &[u8], f: &[u8]) -> bool
    ensures { result ≡ good rule l.now f.now }
{
    if rule == table::CHARACTERS {
        return all_characters(f);
    }
    if rule == table::SPACES {
        return all_are(b' ', f);
    }
    if rule == table::DIGITS {
        return all_digits(f);
    }
    if rule == table::ZEROS {
        return all_are(b'0', f);
    }
    if rule == table::POSITIVE {
        return holds_positive(f);
    }
    if rule == table::DATE {
        return date(f);
    }
    if rule == table::STANDARD {
        return equal(f, b"4");
    }
    if rule == table::FORMAT {
        return is_format(f);
    }
    if rule == table::RECORD_LENGTH {
        return has_record_length(l);
    }
    true
}

// Whether the w bytes at a place of a label suit their rule.
pub(crate) fn good_at(l: &[u8], rule: u8, scope: u8, at: usize, w: usize) -> bool
    ensures { result ≡ good_at l.now rule scope at w }
{
    suits_rule(rule, l, part_of(l, at, w))
}
