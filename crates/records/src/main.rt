// The records program: reads an image from standard input and writes every record of every file, in order and each followed by a
// newline, to standard output, or the line of its refusal. It takes the records by a reader, one after the other.

#![tactic(auto)]

ghost use Rattle.std.specs.Prelude.{◌≡◌, length, IfOk};
ghost use Rattle.content.specs.Walk.{join_at};
ghost use Rattle.reader.specs.Read.{read_at};

use base::{Verdict, part_of};
use content::{Walk, record_part};
use listing::refused;
use reader::{count, next_at, open_at};
use std::io;
use std::io::{Read, Write};

// The most bytes that are taken as an image. One more is read, to see that there are more.
const MOST: usize = 60000;

// The most files that a set has.
const FILES: u64 = 64;

// The line of a refusal has room in 64 bytes.
fn write_refusal<W: Write>(out: &mut W, v: Verdict) -> io::Result<()> {
    let mut line = [0u8; 64];
    let r = refused(v, &mut line);
    out.write_all(part_of(&line, 0, r.len as usize))
}

// The record at a place, and the place behind it. Where the output fails, the record stands joined in the buffer all the same.
fn write_next<W: Write>(out: &mut W, image: &[u8], walk: Walk, join: &mut [u8]) -> io::Result<Walk>
    ensures value { IfOk result (λ w. w ≡ (read_at image.now (length join.old) walk).walk) }
    ensures join_after { join.new ≡ join_at image.now join.old walk }
{
    let x = next_at(image, walk, join);
    let found = x.found;
    out.write_all(record_part(image, join, found))?;
    out.write_all(b"\n")?;
    Ok(x.walk)
}

// So many records from a place on.
fn write_records<W: Write>(
    out: &mut W,
    image: &[u8],
    from: Walk,
    records: u64,
    join: &mut [u8],
) -> io::Result<()> {
    let mut walk = from;
    for _ in 0..records {
        walk = write_next(out, image, walk, join)?;
    }
    Ok(())
}

// The place of no file, from which one is opened.
fn nowhere() -> Walk {
    Walk {
        format: 0,
        record_length: 0,
        offset: 0,
        at: 0,
        left: 0,
    }
}

// A file by its number; false where there is none.
fn write_file<W: Write>(out: &mut W, image: &[u8], file: u64, join: &mut [u8]) -> io::Result<bool> {
    let opened = open_at(image, nowhere(), file);
    let v = opened.verdict;
    if v.number != 0 {
        return Ok(false);
    }
    let walk = opened.walk;
    let counted = count(image, file);
    let facts = counted.facts;
    write_records(out, image, walk, facts.records, join)?;
    Ok(true)
}

// The files from 1 on, until there is none.
fn write_files<W: Write>(out: &mut W, image: &[u8], join: &mut [u8]) -> io::Result<()> {
    for file in 1..FILES + 1 {
        if !write_file(out, image, file, join)? {
            return Ok(());
        }
    }
    Ok(())
}

// A set that is accepted has a first file; what counting it says of any other image is the image's own refusal.
fn write_set<W: Write>(out: &mut W, image: &[u8], join: &mut [u8]) -> io::Result<()> {
    let first = count(image, 1);
    let v = first.verdict;
    if v.number != 0 {
        return write_refusal(out, v);
    }
    write_files(out, image, join)
}

// A joined record is no longer than its image, so it has room in the buffer.
fn write_input<W: Write>(out: &mut W, input: &[u8]) -> io::Result<()> {
    if MOST < input.len() {
        return write_refusal(out, Verdict::at(9, 0));
    }
    let mut join = [0u8; 60000];
    write_set(out, input, &mut join)
}

// Where the input or the output fails, the program ends with the error of the system.
fn main(rt: HostRuntime) -> io::Result<()> {
    let mut input = [0u8; 60001];
    let n = io::copy(&mut rt.stdin().take(60001), &mut &mut input[..])?;
    write_input(&mut rt.stdout(), part_of(&input, 0, n as usize))
}
