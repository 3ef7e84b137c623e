// The records of a file packed into blocks, one after the other, wherever they come from.
ghost use Rattle.std.specs.Prelude.{◌≡◌};
ghost use Rattle.writer.specs.Code.Pass.{job_of};
ghost use Rattle.writer.specs.Code.Source.{moved_to, found_bytes};
ghost use Rattle.writer.specs.Code.Records.{DidPutRecord};
ghost use Rattle.writer.specs.Code.Bodies.{CanTake, CanPutRecords, DidPutRecords};

use crate::form::Form;
use crate::pen::{Job, Pen};
use crate::record::put_piece;
use crate::source::{Cursor, Found, Shape, next, stop_of};
use crate::split::put_split;

// Where the pass is behind the records of a file: the pen, and the place at which they end in their source.
#[derive(Clone, Copy)]
pub struct Body {
    pub pen: Pen,
    pub end: usize,
}

// The cursor behind a record that was found.
fn moved_to(c: Cursor, at: usize, left: usize) -> Cursor
    ensures { result ≡ moved_to c at left }
{
    Cursor { at, left, ..c }
}

// Packs a record that was found at a cursor.
fn put_record(
    form: Form,
    bytes: &[u8],
    c: Cursor,
    r: Found,
    job: &Job,
    p: Pen,
    out: &mut [u8],
    lay: bool,
) -> Pen
    requires { CanTake lay form.format form.block (job_of job.now) bytes.now c r p out.old }
    ensures { DidPutRecord lay form.format form.block (job_of job.now) (found_bytes bytes.now c r) p out.old out.new result }
{
    match r.shape {
        Shape::Segments => put_split(form.format, form.block, bytes, c, r.len, job, p, out, lay),
        Shape::Piece(from) => put_piece(form, bytes, from, r.len, job, p, out, lay),
    }
}

// Packs all records from a cursor on, up to the open block; it stops where a reel is lacking.
pub(crate) fn put_records(
    form: Form,
    lengths: &[u64],
    bytes: &[u8],
    first: Cursor,
    job: &Job,
    p: Pen,
    out: &mut [u8],
    lay: bool,
) -> Body
    requires { CanPutRecords lay form.format form.block (job_of job.now) lengths.now bytes.now first p out.old }
    ensures { DidPutRecords lay form.format form.block (job_of job.now) lengths.now bytes.now first p out.old out.new result }
{
    let mut pen = p;
    let mut c = first;
    while let Some(r) = next(lengths, bytes, c) {
        pen = put_record(form, bytes, c, r, job, pen, out, lay);
        if pen.short {
            return Body { pen, end: 0 };
        }
        c = moved_to(c, r.at, r.left);
    }
    Body {
        pen,
        end: stop_of(lengths, bytes, c),
    }
}
