// The lines of a listing: what is said of a refusal, and of a file.
ghost use Rattle.std.specs.Prelude.{◌≡◌};
ghost use Rattle.listing.specs.Code.Page.{DidPutPage};
ghost use Rattle.listing.specs.Text.{heading, named, counted, placed, refusal_line};
ghost use Rattle.listing.specs.Code.Place.{described_at, line_at};

use crate::page::{put, put_number};
use base::{Verdict, part_of};
use block::Held;
use content::FileAt;
use label::{IDENTIFIER, IDENTIFIER_WIDTH, RECORD_FORMAT, RECORD_FORMAT_WIDTH};
use output::four_digits;

// Writes the place of a refusal, and ends the line.
fn put_place(out: &mut [u8], at: usize, item: u64, byte: u64) -> usize
    ensures { DidPutPage out.old at (placed item byte) out.new result }
{
    let first = put_number(out, at, b" at item ", item);
    let second = put_number(out, first, b" byte ", byte);
    put(out, second, b"\n")
}

// Writes the line of a refusal.
pub(crate) fn put_refusal(out: &mut [u8], v: Verdict) -> usize
    ensures { DidPutPage out.old 0 (refusal_line v) out.new result }
{
    let behind = put_number(out, 0, b"refused ", v.number as u64);
    put_place(out, behind, v.item as u64, v.byte as u64)
}

// Writes the heading.
pub(crate) fn put_heading(out: &mut [u8]) -> usize
    ensures { DidPutPage out.old 0 heading out.new result }
{
    put(out, 0, b"SEQ FILE              FMT RECORDS BYTES\n")
}

// Writes identifier and format.
fn put_names(out: &mut [u8], at: usize, identifier: &[u8], format: &[u8]) -> usize
    ensures { DidPutPage out.old at (named identifier.now format.now) out.new result }
{
    let first = put(out, at, b" ");
    let behind = put(out, first, identifier);
    let second = put(out, behind, b" ");
    put(out, second, format)
}

// Writes the number of records and of their bytes, and ends the line.
fn put_counts(out: &mut [u8], at: usize, records: u64, size: u64) -> usize
    ensures { DidPutPage out.old at (counted records size) out.new result }
{
    let first = put_number(out, at, b" ", records);
    let second = put_number(out, first, b" ", size);
    put(out, second, b"\n")
}

// Writes what is said of a file, and ends the line.
fn put_file(out: &mut [u8], at: usize, image: &[u8], f: FileAt, held: Held) -> usize
    ensures { DidPutPage out.old at (described_at image.now f held) out.new result }
{
    let first = part_of(image, f.hdr1, 80);
    let second = part_of(image, f.hdr2, 80);
    let identifier = part_of(first, IDENTIFIER, IDENTIFIER_WIDTH);
    let format = part_of(second, RECORD_FORMAT, RECORD_FORMAT_WIDTH);
    let behind = put_names(out, at, identifier, format);
    put_counts(out, behind, held.records as u64, held.bytes as u64)
}

// Writes the line of file n, from 1, whose blocks hold this.
pub(crate) fn put_line(
    out: &mut [u8],
    at: usize,
    image: &[u8],
    n: usize,
    f: FileAt,
    held: Held,
) -> usize
    ensures { DidPutPage out.old at (line_at image.now n f held) out.new result }
{
    let d = four_digits(n);
    let behind = put(out, at, &d);
    put_file(out, behind, image, f, held)
}
