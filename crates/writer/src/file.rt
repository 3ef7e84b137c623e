// A file laid down on reels: its header labels, its records in blocks, and its trailer labels. It knows nothing of the files
// before and behind.
ghost use Rattle.std.specs.Prelude.{◌≡◌, length};
ghost use Rattle.reading.specs.Legal.{block_length_from};
ghost use Rattle.sections.specs.Section.{entry_in, sequence_in, set_in};
ghost use Rattle.writer.specs.Code.Pass.{job_of};
ghost use Rattle.writer.specs.Code.Files.{CanBegin, DidBegin, CanPutEnd, DidPutEnd, CanPutFile, DidPutFile};

use crate::body::{Body, put_records};
use crate::form::form_of;
use crate::pen::{Job, Pen, close};
use crate::source::Cursor;
use base::{part_of, put_in};
use charset::number_in;
use label::{BLOCK_LENGTH_IN, BLOCK_LENGTH_WIDTH, ENTRY};
use sections::{FILE_END, HEADERS, Labels, file_end, headers};
use sheet::format_in;
use volume::value_of;

// Begins a file on the reel of a pen.
#[tactic(auto, using(crate::proofs::Files::beginning))]
fn begin_file(labels: &Labels, p: Pen, out: &mut [u8], lay: bool) -> Pen
    requires { CanBegin lay p (length out.old) }
    ensures { DidBegin lay (set_in labels.now) (entry_in labels.now) (sequence_in labels.now) p out.old out.new result }
{
    let r = Pen {
        at: p.at + HEADERS,
        used: 0,
        section: 1,
        count: 0,
        on: false,
        short: false,
        ..p
    };
    if lay {
        put_in(out, p.at, &headers(labels, 1));
    }
    r
}

// Ends a file whose records are packed, unless a reel is lacking: the open block is closed, and the trailer labels follow.
#[tactic(auto, using(crate::proofs::Files::tails))]
fn put_end(labels: &Labels, x: Body, out: &mut [u8], lay: bool) -> Body
    requires { CanPutEnd lay x (length out.old) }
    ensures { DidPutEnd lay (set_in labels.now) (entry_in labels.now) (sequence_in labels.now) x out.old out.new result }
{
    let p = x.pen;
    if p.short {
        return x;
    }
    let c = close(p, out, lay);
    let pen = Pen {
        at: c.at + FILE_END,
        used: 0,
        on: false,
        short: false,
        ..c
    };
    let r = Body { pen, end: x.end };
    if lay {
        put_in(out, c.at, &file_end(labels, c.section, c.count));
    }
    r
}

// The block length of a file's entry.
#[tactic(auto, unfolding(reading::specs::Legal::block_length_from))]
fn block_length_in(entry: &[u8]) -> usize
    ensures { result ≡ block_length_from entry.now }
{
    value_of(number_in(part_of(entry, BLOCK_LENGTH_IN, BLOCK_LENGTH_WIDTH))) as usize
}

// Lays a file: its header labels, its blocks, and its trailer labels. Its entry says the format of its records and the length of
// its blocks.
pub(crate) fn put_file(
    lengths: &[u64],
    bytes: &[u8],
    c: Cursor,
    job: &Job,
    p: Pen,
    out: &mut [u8],
    lay: bool,
) -> Body
    requires { CanPutFile lay (job_of job.now) lengths.now bytes.now c p out.old }
    ensures { DidPutFile lay (job_of job.now) lengths.now bytes.now c p out.old out.new result }
{
    let labels = job.labels;
    let entry = part_of(labels, 0, ENTRY);
    let f = format_in(entry);
    let b = block_length_in(entry);
    let form = form_of(f, b);
    let h = begin_file(labels, p, out, lay);
    let x = put_records(form, lengths, bytes, c, job, h, out, lay);
    put_end(labels, x, out, lay)
}
