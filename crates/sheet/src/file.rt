// The files on a sheet: their entries and their records. It knows nothing of reels.
ghost use Rattle.std.specs.Prelude.{◌≡◌, ◌+◌, ◌≤◌, length, drop};
ghost use Rattle.base.specs.Sum.{sum, cut_by};
ghost use Rattle.order.specs.Kind.{hdr};
ghost use Rattle.label.specs.Name.{hdr1_name, hdr2_name};
ghost use Rattle.label.specs.Judged.{label_fault};
ghost use Rattle.label.specs.Made.{entry_length, made_first, made_second};
ghost use Rattle.reading.specs.Legal.{is_sound, format_from, record_length_from, legal_entry, legal_record, legal_records, legal_file, legal_files};
ghost use Rattle.sheet.specs.Flat.{in_parts, files_from};
ghost use Rattle.sheet.specs.Code.Passing.{passed, too_long};

use base::{FIXED, VARIABLE, part_of};
use block::{all_padding, smaller};
use charset::number_in;
use label::{ENTRY, FORMAT_IN, SIZE_IN, SIZE_WIDTH, first_label, label_fault, second_label};
use order::{HDR, Kind};
use volume::value_of;

// The least length of a record that four digits of a control word cannot say.
const UNSAYABLE: usize = 9_996;

// ---- a file's entry

// Whether HDR1 made of an entry has no fault.
#[tactic(auto, unfolding(reading::specs::Legal::is_sound))]
fn is_first_sound(set: &[u8], entry: &[u8]) -> bool
    ensures { result ≡ is_sound (label_fault (hdr 1) (made_first hdr1_name set.now entry.now 1 1 0)) }
{
    let l = first_label(b"HDR1", set, entry, 1, 1, 0);
    let f = label_fault(
        Kind {
            family: HDR,
            number: 1,
        },
        &l,
    );
    f.number == 0
}

// Whether HDR2 made of an entry has no fault.
#[tactic(auto, unfolding(reading::specs::Legal::is_sound))]
fn is_second_sound(entry: &[u8]) -> bool
    ensures { result ≡ is_sound (label_fault (hdr 2) (made_second hdr2_name entry.now)) }
{
    let l = second_label(b"HDR2", entry);
    let f = label_fault(
        Kind {
            family: HDR,
            number: 2,
        },
        &l,
    );
    f.number == 0
}

// Whether the set identifier and an entry are legal.
#[tactic(auto, unfolding(reading::specs::Legal::legal_entry, base::specs::If::if_b))]
fn is_legal_entry(set: &[u8], entry: &[u8]) -> bool
    ensures { result ≡ legal_entry set.now entry.now }
{
    set.len() == 6 && entry.len() == ENTRY && is_first_sound(set, entry) && is_second_sound(entry)
}

// The format of an entry.
#[tactic(auto, unfolding(reading::specs::Legal::format_from))]
pub fn format_in(entry: &[u8]) -> u8
    ensures { result ≡ format_from entry.now }
{
    if FORMAT_IN < entry.len() {
        return entry[FORMAT_IN];
    }
    0
}

// The record length of an entry.
#[tactic(auto, unfolding(reading::specs::Legal::record_length_from))]
fn record_length_in(entry: &[u8]) -> u32
    ensures { result ≡ record_length_from entry.now }
{
    value_of(number_in(part_of(entry, SIZE_IN, SIZE_WIDTH)))
}

// ---- records

// Whether a record is legal in an F file of that record length.
#[tactic(auto, unfolding(reading::specs::Legal::legal_record, base::specs::If::if_b))]
fn is_fixed(record_length: u32, x: &[u8]) -> bool
    ensures { result ≡ legal_record 70 record_length x.now }
{
    x.len() == record_length as usize && !all_padding(x)
}

// The records of an F file, of these lengths from a place on: the place behind them, if all are legal. It stays a call, once a
// file: in its caller the place is kept in memory from record to record, for which the next one waits.
#[inline(never)]
#[tactic(auto, using(crate::proofs::Records::cuts))]
fn fixed_passed(record_length: u32, lengths: &[u64], bytes: &[u8], from: usize) -> Option<usize>
    requires { from + sum lengths.now ≤ length bytes.now }
    ensures { result ≡ passed (legal_records 70 record_length (cut_by lengths.now (drop from bytes.now))) lengths.now from }
{
    let mut at = from;
    for n in lengths {
        let end = at + *n as usize;
        if !is_fixed(record_length, &bytes[at..end]) {
            return None;
        }
        at = end;
    }
    Some(at)
}

// The least length that is too long for a record of a D or S file.
#[tactic(auto, unfolding(crate::specs::Code::Passing::too_long, base::specs::If::if_b))]
fn too_long(format: u8, record_length: u32) -> usize
    ensures { result ≡ too_long format record_length }
{
    let most = record_length as usize;
    if format == VARIABLE {
        if most < 3 {
            return 0;
        }
        return smaller(most - 3, UNSAYABLE);
    }
    most + 1
}

// The records of a D or S file, of these lengths from a place on: no byte of theirs is looked at.
#[tactic(auto, using(crate::proofs::Records::cuts))]
fn lengths_passed(
    format: u8,
    record_length: u32,
    lengths: &[u64],
    bytes: &[u8],
    from: usize,
) -> Option<usize>
    requires fact { format ≡ 70 → ⊥ }
    requires lengths_in_bounds { from + sum lengths.now ≤ length bytes.now }
    ensures { result ≡ passed (legal_records format record_length (cut_by lengths.now (drop from bytes.now))) lengths.now from }
{
    let over = too_long(format, record_length);
    let mut at = from;
    for length in lengths {
        let n = *length as usize;
        if over <= n {
            return None;
        }
        at += n;
    }
    Some(at)
}

// The records of these lengths from a place on.
fn records_passed(
    format: u8,
    record_length: u32,
    lengths: &[u64],
    bytes: &[u8],
    from: usize,
) -> Option<usize>
    requires { from + sum lengths.now ≤ length bytes.now }
    ensures { result ≡ passed (legal_records format record_length (cut_by lengths.now (drop from bytes.now))) lengths.now from }
{
    if format == FIXED {
        return fixed_passed(record_length, lengths, bytes, from);
    }
    lengths_passed(format, record_length, lengths, bytes, from)
}

// ---- files

// A file with that entry, and records of these lengths from a place on.
#[tactic(auto, unfolding(reading::specs::Legal::legal_file, crate::specs::Code::Passing::passed, base::specs::If::if_b))]
fn file_passed(
    set: &[u8],
    entry: &[u8],
    lengths: &[u64],
    bytes: &[u8],
    from: usize,
) -> Option<usize>
    requires { from + sum lengths.now ≤ length bytes.now }
    ensures { result ≡ passed
        (legal_file set.now (record { fields = entry.now; records = cut_by lengths.now (drop from bytes.now) }))
        lengths.now from }
{
    if !is_legal_entry(set, entry) {
        return None;
    }
    records_passed(
        format_in(entry),
        record_length_in(entry),
        lengths,
        bytes,
        from,
    )
}

// Whether every file is legal: each has the next entry, the next count, and as many of the next lengths as that count says.
#[tactic(auto, using(crate::proofs::Files::lefts))]
pub(crate) fn are_legal(
    set: &[u8],
    files: &[u8],
    counts: &[u64],
    lengths: &[u64],
    bytes: &[u8],
) -> bool
    requires { sum lengths.now ≤ length bytes.now }
    ensures { result ≡ legal_files set.now (files_from (in_parts entry_length files.now) counts.now lengths.now bytes.now) }
{
    let mut entries = files;
    let mut left = lengths;
    let mut at = 0;
    for count in counts {
        if entries.len() == 0 {
            return true;
        }
        let size = smaller(entries.len(), ENTRY);
        let n = smaller(left.len(), *count as usize);
        match file_passed(set, &entries[..size], &left[..n], bytes, at) {
            None => return false,
            Some(end) => at = end,
        }
        entries = &entries[size..];
        left = &left[n..];
    }
    true
}
