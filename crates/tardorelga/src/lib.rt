// The operations as C and Rust call them: a slice is a pointer and a length, a result is a struct of numbers by value.

#![tactic(auto)]

ghost use Rattle.std.specs.Prelude.{◌≡◌, length};
ghost use Rattle.base.specs.Part.{put_at};
ghost use Rattle.output.specs.Output.{Answers, AnswersAt, fitted};
ghost use Rattle.simh.specs.Set.{from_simh, to_simh, Converts};
ghost use Rattle.volume.specs.Run.{image_verdict};
ghost use Rattle.label.specs.Judged.{field_with};
ghost use Rattle.content.specs.File.{begun_at, first_file, next_file};
ghost use Rattle.content.specs.Items.{item_at};
ghost use Rattle.content.specs.Records.{records_at, facts_of};
ghost use Rattle.content.specs.Found.{found_at, left_at};
ghost use Rattle.content.specs.Walk.{step_at, join_at};
ghost use Rattle.content.specs.Row.{steps_in, row_of};
ghost use Rattle.content.specs.Numbers.{record_of, beginning_of, file_of, stepped_of};
ghost use Rattle.listing.specs.Text.{text_of};
ghost use Rattle.writing.specs.Write.{flat, write};
ghost use Rattle.writing.specs.Rewrite.{rewrite};

use base::Verdict;
use content::{
    Beginning, Facts, ItemAt, Located, Row, Stepped, Walk, begin, beginning_of, file_facts,
    file_of, first_file, item_at, next_file, record, record_of, stepped_of,
};
use order::Kind;
use output::Written;
use simh::Tapes;

// The verdict on an image, whatever its bytes.
#[unsafe(no_mangle)]
pub extern "C" fn tardorelga_check(image: &[u8]) -> Verdict
    ensures { result ≡ image_verdict image.now }
{
    volume::check(image)
}

// Record r of file n, both from 1; one of several segments is joined into the front of the lent buffer.
#[unsafe(no_mangle)]
pub extern "C" fn tardorelga_record(image: &[u8], n: u64, r: u64, join: &mut [u8]) -> Located
    ensures value { result ≡ record_of (found_at image.now n r (length join.old)) }
    ensures join_after { join.new ≡ left_at image.now n r join.old }
{
    record_of(record(image, n, r, join))
}

// File n, from 1, with the walk at its first record.
#[unsafe(no_mangle)]
pub extern "C" fn tardorelga_begin(image: &[u8], n: u64) -> Beginning
    ensures { result ≡ beginning_of (begun_at image.now n) }
{
    beginning_of(begin(image, n))
}

// The first file of an image, by the order of its items alone; of an accepted set file 1.
#[unsafe(no_mangle)]
pub extern "C" fn tardorelga_first_file(image: &[u8]) -> Beginning
    ensures { result ≡ file_of (first_file image.now) }
{
    file_of(first_file(image))
}

// The file behind the one whose HDR1 and HDR2 stand at these places, be they right or forged; in an accepted set the file of the
// next number.
#[unsafe(no_mangle)]
pub extern "C" fn tardorelga_next_file(image: &[u8], hdr1: u64, hdr2: u64) -> Beginning
    ensures { result ≡ file_of (next_file image.now hdr1 hdr2) }
{
    file_of(next_file(image, hdr1 as usize, hdr2 as usize))
}

// What stands at a place between two items, in a group: any place and any group.
#[unsafe(no_mangle)]
pub extern "C" fn tardorelga_item_at(image: &[u8], at: u64, group: u32) -> ItemAt
    ensures { result ≡ item_at image.now at group }
{
    item_at(image, at as usize, group)
}

// The first byte of the field in which a byte of such a label stands, both counted from 1, or 0.
#[unsafe(no_mangle)]
pub extern "C" fn tardorelga_field_at(family: u32, number: u32, byte: u32) -> u32
    ensures { result ≡ field_with (record { family = family; number = number }) byte }
{
    label::field_with(Kind { family, number }, byte)
}

// How many records, and record bytes, there are from a walk on, whatever its state.
#[unsafe(no_mangle)]
pub extern "C" fn tardorelga_count(image: &[u8], walk: Walk) -> Facts
    ensures { result ≡ facts_of (records_at image.now walk) }
{
    file_facts(image, walk)
}

// A step of a walk, from any state whatever.
#[unsafe(no_mangle)]
pub extern "C" fn tardorelga_step(image: &[u8], walk: Walk, join: &mut [u8]) -> Stepped
    ensures value { result ≡ stepped_of walk (step_at image.now (length join.old) walk) }
    ensures join_after { join.new ≡ join_at image.now join.old walk }
{
    stepped_of(walk, walk.step(image, join))
}

// As many steps at once as two lent lists have room for, from any state whatever: the records that are parts of the image, by
// their places and lengths.
#[unsafe(no_mangle)]
pub extern "C" fn tardorelga_steps(
    image: &[u8],
    walk: Walk,
    places: &mut [u64],
    lengths: &mut [u64],
) -> Row
    ensures value { result ≡ row_of (steps_in image.now places.old lengths.old walk) }
    ensures places_after { places.new ≡ put_at places.old 0 (steps_in image.now places.old lengths.old walk).places }
    ensures lengths_after { lengths.new ≡ put_at lengths.old 0 (steps_in image.now places.old lengths.old walk).lengths }
{
    content::steps(image, walk, places, lengths)
}

// Writes the listing of an image, or the line of its refusal, into a lent buffer.
#[unsafe(no_mangle)]
pub extern "C" fn tardorelga_listing(image: &[u8], out: &mut [u8]) -> Written
    ensures { Answers (fitted (text_of image.now) out.old) result out.new }
{
    listing::listing(image, out)
}

// Writes an order sheet as an image into a lent buffer.
#[unsafe(no_mangle)]
pub extern "C" fn tardorelga_write(
    set: &[u8],
    files: &[u8],
    counts: &[u64],
    lengths: &[u64],
    bytes: &[u8],
    quota: u64,
    names: &[u8],
    out: &mut [u8],
) -> Written
    ensures { Answers (write (flat set.now files.now counts.now lengths.now bytes.now quota names.now) out.old) result out.new }
{
    writer::write(set, files, counts, lengths, bytes, quota, names, out)
}

// Rewrites an accepted image into a lent buffer, with this quota and these reel names.
#[unsafe(no_mangle)]
pub extern "C" fn tardorelga_rewrite(
    image: &[u8],
    quota: u64,
    names: &[u8],
    out: &mut [u8],
) -> Written
    ensures { AnswersAt (rewrite image.now quota names.now out.old) result out.new }
{
    writer::rewrite(image, quota, names, out)
}

// Converts a set of SIMH files, one a reel, which stand end to end and have these lengths, into an image in a lent buffer.
#[unsafe(no_mangle)]
pub extern "C" fn tardorelga_from_simh(tape: &[u8], lengths: &[u64], out: &mut [u8]) -> Written
    ensures { AnswersAt (from_simh tape.now lengths.now out.old) result out.new }
{
    simh::from_simh(tape, lengths, out)
}

// Converts an image with a good framing into SIMH files, one a reel, end to end in a lent buffer, and their lengths in a lent
// list.
#[unsafe(no_mangle)]
pub extern "C" fn tardorelga_to_simh(image: &[u8], out: &mut [u8], lengths: &mut [u64]) -> Tapes
    ensures { Converts (to_simh image.now out.old lengths.old) result out.new lengths.new }
{
    simh::to_simh(image, out, lengths)
}
