// A reader: it keeps the lent image together with its place, and offers the steps of a walk. It knows no byte of an image: each
// of its functions takes the reader apart, or makes one for a call, and leaves the work to `content`.

#![tactic(auto)]

ghost use Rattle.std.specs.Prelude.{◌≡◌, length};
ghost use Rattle.content.specs.Numbers.{record_of, Said};
ghost use Rattle.content.specs.Records.{records_at, facts_of};
ghost use Rattle.content.specs.Walk.{join_at};
ghost use Rattle.reader.specs.Read.{opened_by, opened_at, read_by, read_at, located_by, count_at, moved};

use base::Verdict;
use content::{Facts, FileAt, Found, Walk, begin, file_facts};

// A lent image, and the place of a walk in it.
#[derive(Clone, Copy)]
pub struct Reader<'a> {
    pub image: &'a [u8],
    pub walk: Walk,
}

// What opening a file says, and the place behind it.
#[derive(Clone, Copy)]
pub struct Opened {
    pub verdict: Verdict,
    pub walk: Walk,
}

// The verdict of a file's opening, and the facts of its records.
#[derive(Clone, Copy)]
pub struct FileFacts {
    pub verdict: Verdict,
    pub facts: Facts,
}

// What a step says of the record, and the place behind it.
#[derive(Clone, Copy)]
pub struct Reading {
    pub found: Result<Found, Verdict>,
    pub walk: Walk,
}

// What opening a file says, by how it begins; a refusal does not move the place.
fn opened_by(w: Walk, begun: Result<FileAt, Verdict>) -> Opened
    ensures { result ≡ opened_by w begun }
{
    match begun {
        Ok(f) => Opened {
            verdict: Verdict::at(0, 0),
            walk: f.walk,
        },
        Err(verdict) => Opened { verdict, walk: w },
    }
}

// The opening of a file, with the reader taken apart.
fn begin_at(image: &[u8], w: Walk, file: u64) -> Opened
    ensures { result ≡ opened_at image.now w file }
{
    opened_by(w, begin(image, file))
}

// What a reading is, by the step; a refusal does not move the place.
fn read_by(w: Walk, x: Result<(Found, Walk), u32>) -> Reading
    ensures { result ≡ read_by w x }
{
    match x {
        Ok((found, walk)) => Reading {
            found: Ok(found),
            walk,
        },
        Err(number) => Reading {
            found: Err(Verdict::at(number, 0)),
            walk: w,
        },
    }
}

// The next record, with the reader taken apart.
fn step_at(image: &[u8], w: Walk, join: &mut [u8]) -> Reading
    ensures value { result ≡ read_at image.now (length join.old) w }
    ensures join_after { join.new ≡ join_at image.now join.old w }
{
    read_by(w, w.step(image, join))
}

// A reader at a walk's place.
pub fn new<'a>(image: &'a [u8], walk: Walk) -> Reader<'a>
    ensures { (result.image ≡ image.entry) × (result.walk ≡ walk) }
{
    Reader { image, walk }
}

// The facts of the records from the reader's place on.
pub fn left<'a>(r: Reader<'a>) -> Facts
    ensures { result ≡ facts_of (records_at r.entry.image.now r.entry.walk) }
{
    file_facts(r.image, r.walk)
}

// The reader at the first record of a file, from 1: the image's own number, then 13; with a refusal it stays where it stood.
pub fn open_file<'s, 'a>(r: &'s mut Reader<'a>, file: u64) -> Verdict
    ensures { (result ≡ (opened_at r.old.image.now r.old.walk file).verdict)
        × (r.new ≡ moved r.old (opened_at r.old.image.now r.old.walk file).walk) }
{
    let o = begin_at(r.image, r.walk, file);
    r.walk = o.walk;
    o.verdict
}

// The next record, as a step of a walk gives it: a part of the image, or the front of the joining buffer, or 13 or 10. With a
// refusal the reader stays where it stood, and no byte is changed.
pub fn next<'s, 'a, 'j>(r: &'s mut Reader<'a>, join: &'j mut [u8]) -> Result<Found, Verdict>
    ensures { Said record_of result (read_at r.old.image.now (length join.old) r.old.walk).found
        × (join.new ≡ join_at r.old.image.now join.old r.old.walk)
        × (r.new ≡ moved r.old (read_at r.old.image.now (length join.old) r.old.walk).walk) }
{
    let x = step_at(r.image, r.walk, join);
    r.walk = x.walk;
    x.found
}

// A file opened by a reader that stands at a walk's place, for a caller that keeps the place and no reader.
pub fn open_at(image: &[u8], walk: Walk, file: u64) -> Opened
    ensures { result ≡ opened_at image.now walk file }
{
    let mut r = new(image, walk);
    let verdict = open_file(&mut r, file);
    Opened {
        verdict,
        walk: r.walk,
    }
}

// The next record of a reader that stands at a walk's place, for a caller that keeps the place and no reader.
pub fn next_at(image: &[u8], walk: Walk, join: &mut [u8]) -> Reading
    ensures { Said located_by result (read_at image.now (length join.old) walk)
        × (join.new ≡ join_at image.now join.old walk) }
{
    let mut r = new(image, walk);
    let found = next(&mut r, join);
    Reading {
        found,
        walk: r.walk,
    }
}

// The facts of the records from a walk's place on, as a reader there has them.
fn facts_from(image: &[u8], walk: Walk) -> Facts
    ensures { result ≡ facts_of (records_at image.now walk) }
{
    left(new(image, walk))
}

// How many records a file has, and how many bytes they have, with the verdict of its opening: none with a refusal.
pub fn count(image: &[u8], file: u64) -> FileFacts
    ensures { result ≡ count_at image.now file }
{
    let none = Walk {
        format: 0,
        record_length: 0,
        offset: 0,
        at: 0,
        left: 0,
    };
    let opened = begin_at(image, none, file);
    let verdict = opened.verdict;
    let walk = opened.walk;
    let facts = facts_from(image, walk);
    FileFacts { verdict, facts }
}
