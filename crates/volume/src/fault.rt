// The faults of an item that is due: those of its label by itself, then those against what was read before it.
// It knows no order of items, and no place of a field but those that a cross-check names.
ghost use Rattle.std.specs.Prelude.{◌≡◌, true, ◌+◌, eqb};
ghost use Rattle.base.specs.If.{if_b};
ghost use Rattle.base.specs.Part.{same};
ghost use Rattle.base.specs.Answer.{fault, or_else};
ghost use Rattle.order.specs.Kind.{eov, eof, is_kind};
ghost use Rattle.label.specs.Field.{set_of, section_of, count_of};
ghost use Rattle.volume.specs.Fault.{names_at, says, value_of, lower, crossed, volume_fault, new_file_place, later_place, file_fault, hdr1_fault, hdr2_fault, trailer1_fault, open_fault, file_end_fault, trailer2_fault, outcome_in, block_fault, context_fault, item_fault};
ghost use Rattle.volume.specs.Code.Place.{contents};

use super::Reading;
use super::among::{is_among, label_at};
use base::{Fault, equal};
use block::{Outcome, block_outcome};
use label::{
    COUNT_BP, SECTION_BP, SEQUENCE_BP, SET_BP, VOLUME_BP, block_length, count_of, format_of,
    label_fault, offset_length, record_length, section_of, sequence_of, set_of,
    unequal_section_first, unequal_section_second, unequal_trailer_first, unequal_trailer_second,
    volume_of,
};
use order::{DATA_BLOCK, EOF, EOV, HDR, Kind, VOL, is};

// The most reels and files of a set.
const REELS: usize = 16;

const FILES: u32 = 64;

// Whether a field says n. At 64 bits, where one more than any number of 32 bits fits.
fn says(n: u64, x: Option<u32>) -> bool
    ensures { result ≡ says n x }
{
    match x {
        Some(m) => m as u64 == n,
        None => false,
    }
}

// What a field says, 0 where it says no number.
#[tactic(auto, unfolding(crate::specs::Fault::value_of))]
pub fn value_of(x: Option<u32>) -> u32
    ensures { result ≡ value_of x }
{
    match x {
        Some(n) => n,
        None => 0,
    }
}

// The lower of two BPs, where 0 is none.
fn lower(a: u32, b: u32) -> u32
    ensures { result ≡ lower a b }
{
    if a == 0 {
        return b;
    }
    if b == 0 {
        return a;
    }
    if a <= b {
        return a;
    }
    b
}

// Number 6 at a BP, or none.
fn crossed(bp: u32) -> Fault
    ensures { result ≡ crossed bp }
{
    if bp == 0 {
        return Fault { number: 0, byte: 0 };
    }
    Fault {
        number: 6,
        byte: bp,
    }
}

// The first of two faults that is one.
fn or_else(f: Fault, g: Fault) -> Fault
    ensures { result ≡ or_else f g }
{
    if f.number == 0 {
        return g;
    }
    f
}

// The fault of VOL1 behind the volumes whose names stand at these places: a 17th reel, or the name of one of them.
fn volume_fault(image: &[u8], volumes: &[usize], l: &[u8]) -> Fault
    ensures { result ≡ volume_fault (names_at image.now volumes.now) l.now }
{
    if REELS <= volumes.len() {
        return Fault { number: 2, byte: 0 };
    }
    if is_among(image, volumes, volume_of(l)) {
        return Fault {
            number: 6,
            byte: VOLUME_BP,
        };
    }
    Fault { number: 0, byte: 0 }
}

// Whether a new file has the set identifier of the file before, where there is one.
fn is_same_set(files: u32, hdr1: &[u8], l: &[u8]) -> bool
    ensures { result ≡ if_b (eqb files 0) true (same (set_of l.now) (set_of hdr1.now)) }
{
    if files == 0 {
        return true;
    }
    equal(set_of(l), set_of(hdr1))
}

// The BP at which the first HDR1 of a file is wrong against the file before, or 0.
fn new_file_place(files: u32, hdr1: &[u8], l: &[u8]) -> u32
    ensures { result ≡ new_file_place files hdr1.now l.now }
{
    if is_same_set(files, hdr1, l) {
        if says(1, section_of(l)) {
            if says(files as u64 + 1, sequence_of(l)) {
                return 0;
            }
            return SEQUENCE_BP;
        }
        return SECTION_BP;
    }
    SET_BP
}

// The BP of the section number, where it is not one higher than in the section before, or 0.
fn section_place(hdr1: &[u8], l: &[u8]) -> u32
    ensures { result ≡ if_b (says (value_of (section_of hdr1.now) + 1) (section_of l.now)) 0 28 }
{
    let before = value_of(section_of(hdr1)) as u64;
    if says(before + 1, section_of(l)) {
        return 0;
    }
    SECTION_BP
}

// The BP at which HDR1 of a later section is wrong against the section before, or 0.
fn later_place(hdr1: &[u8], l: &[u8]) -> u32
    ensures { result ≡ later_place hdr1.now l.now }
{
    lower(unequal_section_first(hdr1, l), section_place(hdr1, l))
}

// The fault of a file behind that many others: the 65th is refused.
fn file_fault(files: u32) -> Fault
    ensures { result ≡ file_fault files }
{
    if FILES <= files {
        return Fault { number: 9, byte: 0 };
    }
    Fault { number: 0, byte: 0 }
}

// The fault of HDR1, of a later section or of a new file.
fn hdr1_fault(continues: bool, files: u32, hdr1: &[u8], l: &[u8]) -> Fault
    ensures { result ≡ hdr1_fault continues files hdr1.now l.now }
{
    if continues {
        return crossed(later_place(hdr1, l));
    }
    or_else(crossed(new_file_place(files, hdr1, l)), file_fault(files))
}

// The fault of HDR2, which a later section has as the section before.
fn hdr2_fault(continues: bool, hdr2: &[u8], l: &[u8]) -> Fault
    ensures { result ≡ hdr2_fault continues hdr2.now l.now }
{
    if continues {
        return crossed(unequal_section_second(hdr2, l));
    }
    Fault { number: 0, byte: 0 }
}

// The BP of the block count, where it is not the number of blocks of the section, or 0.
fn count_place(count: usize, l: &[u8]) -> u32
    ensures { result ≡ if_b (says count (count_of l.now)) 0 55 }
{
    if says(count as u64, count_of(l)) {
        return 0;
    }
    COUNT_BP
}

// The fault of EOV1 or EOF1 against the HDR1 and the blocks of its section.
fn trailer1_fault(hdr1: &[u8], count: usize, l: &[u8]) -> Fault
    ensures { result ≡ trailer1_fault hdr1.now count l.now }
{
    crossed(lower(unequal_trailer_first(hdr1, l), count_place(count, l)))
}

// The fault of a file that ends with a record open.
fn open_fault(pending: usize) -> Fault
    ensures { result ≡ open_fault pending }
{
    if pending == 0 {
        return Fault { number: 0, byte: 0 };
    }
    Fault { number: 8, byte: 0 }
}

// The fault of EOF1: that of a first trailer label, then an open record.
fn file_end_fault(hdr1: &[u8], count: usize, pending: usize, l: &[u8]) -> Fault
    ensures { result ≡ file_end_fault hdr1.now count pending l.now }
{
    or_else(trailer1_fault(hdr1, count, l), open_fault(pending))
}

// The fault of EOV2 or EOF2 against the HDR2 of its section.
fn trailer2_fault(hdr2: &[u8], l: &[u8]) -> Fault
    ensures { result ≡ trailer2_fault hdr2.now l.now }
{
    crossed(unequal_trailer_second(hdr2, l))
}

// The fault of an item of kind k that is a trailer label; any other has none here.
fn trailer_fault(hdr1: &[u8], hdr2: &[u8], count: usize, pending: usize, k: Kind, l: &[u8]) -> Fault
    ensures { result ≡ if_b (is_kind k (eov 1)) (trailer1_fault hdr1.now count l.now)
        (if_b (is_kind k (eof 1)) (file_end_fault hdr1.now count pending l.now)
        (if_b (is_kind k (eov 2)) (trailer2_fault hdr2.now l.now)
        (if_b (is_kind k (eof 2)) (trailer2_fault hdr2.now l.now) (fault 0 0)))) }
{
    if is(k, EOV, 1) {
        return trailer1_fault(hdr1, count, l);
    }
    if is(k, EOF, 1) {
        return file_end_fault(hdr1, count, pending, l);
    }
    if is(k, EOV, 2) {
        return trailer2_fault(hdr2, l);
    }
    if is(k, EOF, 2) {
        return trailer2_fault(hdr2, l);
    }
    Fault { number: 0, byte: 0 }
}

// The answer on a data block, by the lengths in the HDR2 of its section.
pub(crate) fn outcome_in(hdr2: &[u8], pending: usize, l: &[u8]) -> Outcome
    ensures { result ≡ outcome_in hdr2.now pending l.now }
{
    let block = value_of(block_length(hdr2)) as usize;
    let record_length = value_of(record_length(hdr2));
    let offset = value_of(offset_length(hdr2)) as usize;
    block_outcome(format_of(hdr2), block, record_length, offset, pending, l)
}

// The fault of a data block.
fn block_fault(hdr2: &[u8], pending: usize, l: &[u8]) -> Fault
    ensures { result ≡ block_fault hdr2.now pending l.now }
{
    let outcome = outcome_in(hdr2, pending, l);
    Fault {
        number: outcome.number,
        byte: 0,
    }
}

// The fault of an item of kind k and contents l against what was read before it, with the last HDR1 and HDR2 at hand.
fn context_fault(
    image: &[u8],
    volumes: &[usize],
    st: Reading,
    hdr1: &[u8],
    hdr2: &[u8],
    k: Kind,
    l: &[u8],
) -> Fault
    ensures { result ≡ context_fault
        (record {
          phase = st.phase;
          volumes = names_at image.now volumes.now;
          files = st.files;
          continues = st.continues;
          hdr1 = hdr1.now;
          hdr2 = hdr2.now;
          count = st.count;
          pending = st.pending;
        }) k l.now }
{
    if is(k, DATA_BLOCK, 0) {
        return block_fault(hdr2, st.pending, l);
    }
    if is(k, VOL, 1) {
        return volume_fault(image, volumes, l);
    }
    if is(k, HDR, 1) {
        return hdr1_fault(st.continues, st.files, hdr1, l);
    }
    if is(k, HDR, 2) {
        return hdr2_fault(st.continues, hdr2, l);
    }
    trailer_fault(hdr1, hdr2, st.count, st.pending, k, l)
}

// Its first fault: 4 and 5 of its label by itself, then the others.
pub(crate) fn item_fault(image: &[u8], volumes: &[usize], st: Reading, k: Kind, l: &[u8]) -> Fault
    ensures { result ≡ item_fault (contents image.now volumes.now st) k l.now }
{
    let hdr1 = label_at(image, st.hdr1);
    let hdr2 = label_at(image, st.hdr2);
    or_else(
        label_fault(k, l),
        context_fault(image, volumes, st, hdr1, hdr2, k, l),
    )
}
