// Writing an order sheet as an image, and rewriting an accepted image. It knows in which order the numbers are given back, and
// asks the layers below for each part.

#![tactic(auto)]

mod body; // body.rt: the records of a file
mod file; // file.rt: a file with its labels
mod form; // form.rt: the form in which records are packed
mod pack; // pack.rt: a record packed into blocks
mod pen; // pen.rt: blocks and reels
mod record; // record.rt: a record that stands in one piece
mod set; // set.rt: all files
mod source; // source.rt: where the next record stands
mod split; // split.rt: a record that stands in several segments

ghost use Rattle.std.specs.Prelude.{◌≡◌};
ghost use Rattle.output.specs.Output.{Answers, AnswersAt};
ghost use Rattle.volume.specs.Run.{image_verdict};
ghost use Rattle.sheet.specs.Flat.{reels_number};
ghost use Rattle.writing.specs.Write.{flat, stored_laid, write_sheet, write as writing};
ghost use Rattle.writing.specs.Rewrite.{sheet_from, rewrite as rewriting};
ghost use Rattle.writer.specs.Code.Sets.{origin_in, task_of, CanWrite, set_laid, sheet_at, CanOrder};

use base::part_of;
use content::{FileAt, Walk, first_file};
use label::set_of;
use output::{Written, done, refusal, refused};
use sections::{Labels, NAME, NAMES, SET};
use set::{Input, LABEL, Place, lay_set, with_part};
use sheet::{reels_number, sheet_number};
use volume::check;

// One more than the longest image.
const OVER_LONG: usize = 16777216;

// Writes a set on reels with rooms, its files from the first on. A first pass finds its reels and its length before the first
// byte is written; the second writes what was measured.
fn write_set(input: &Input, start: Place, labels: Labels, rooms: &[u64], out: &mut [u8]) -> Written
    requires { CanWrite (task_of input.now labels rooms.now) start }
    ensures { Answers (stored_laid (set_laid (task_of input.now labels rooms.now) start) out.old) result out.new }
{
    let m = lay_set(input, start, labels, rooms, out, false);
    if m.short {
        return refusal(12);
    }
    let end = m.at;
    if OVER_LONG <= end {
        return refusal(14);
    }
    if out.len() < end {
        return refusal(10);
    }
    lay_set(input, start, labels, rooms, out, true);
    done(end)
}

// Writes a set on reels that all have the same room.
#[tactic(auto, using(crate::proofs::Quotas::quotas))]
fn write_quota(
    set: &[u8],
    input: &Input,
    start: Place,
    quota: u64,
    names: &[u8],
    out: &mut [u8],
) -> Written
    requires { CanOrder (origin_in input.now) set.now input.now.lengths.now input.now.bytes.now start quota names.now }
    ensures { Answers (write_sheet (sheet_at (origin_in input.now) set.now input.now.lengths.now input.now.bytes.now start quota names.now) out.old) result out.new }
{
    let blank = [0u8; 149];
    let titled = with_part(blank, SET, set);
    let labels = with_part(titled, NAMES, names);
    let rooms = [quota; 16];
    let n = names.len() / NAME;
    write_set(input, start, labels, &rooms[..n], out)
}

// Writes an order sheet into a lent buffer: 9, 11, 12, 14 or 10 with place 0, which change no byte of it, or 0 and the image's
// length.
#[tactic(auto, using(crate::proofs::Quotas::writes))]
pub fn write(
    set: &[u8],
    files: &[u8],
    counts: &[u64],
    lengths: &[u64],
    bytes: &[u8],
    quota: u64,
    names: &[u8],
    out: &mut [u8],
) -> Written
    ensures { Answers (writing (flat set.now files.now counts.now lengths.now bytes.now quota names.now) out.old) result out.new }
{
    let n = sheet_number(set, files, counts, lengths, bytes, quota, names);
    if n != 0 {
        return refusal(n);
    }
    let walk = Walk {
        format: 0,
        record_length: 0,
        offset: 0,
        at: 0,
        left: 0,
    };
    let start = Place {
        nth: 0,
        first: 0,
        byte: 0,
        file: FileAt {
            hdr1: 0,
            hdr2: 0,
            walk,
        },
        on: true,
    };
    let input = Input {
        files,
        counts,
        lengths,
        bytes,
        image: false,
    };
    write_quota(set, &input, start, quota, names, out)
}

// Writes the set of an accepted image, by its files.
fn rewrite_accepted(image: &[u8], quota: u64, names: &[u8], out: &mut [u8]) -> Written
    requires image_value { (image_verdict image.now).number ≡ 0 }
    requires names_value { reels_number quota names.now ≡ 0 }
    ensures { Answers (write_sheet (sheet_from image.now quota names.now) out.old) result out.new }
{
    let Some(file) = first_file(image) else {
        return refusal(11);
    };
    let none = [0u64; 1];
    let start = Place {
        nth: 0,
        first: 0,
        byte: 0,
        file,
        on: true,
    };
    let set = set_of(part_of(image, file.hdr1, LABEL));
    let input = Input {
        files: set,
        counts: &none,
        lengths: &none,
        bytes: image,
        image: true,
    };
    write_quota(set, &input, start, quota, names, out)
}

// Rewrites an accepted image into a lent buffer with a quota and reel names: the image's own answer, then 9, 11, 12, 14 or 10
// with place 0, all of which change no byte of the buffer, or 0 and the length of the image written.
#[tactic(auto, using(crate::proofs::Quotas::rewrites))]
pub fn rewrite(image: &[u8], quota: u64, names: &[u8], out: &mut [u8]) -> Written
    ensures { AnswersAt (rewriting image.now quota names.now out.old) result out.new }
{
    let verdict = check(image);
    if verdict.number != 0 {
        return refused(verdict);
    }
    let n = reels_number(quota, names);
    if n != 0 {
        return refusal(n);
    }
    rewrite_accepted(image, quota, names, out)
}
