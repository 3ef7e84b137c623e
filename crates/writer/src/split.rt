// A record of an image that stands in several segments, packed segment after segment.
ghost use Rattle.std.specs.Prelude.{◌<◌};
ghost use Rattle.content.specs.Code.Joining.{bytes_behind};
ghost use Rattle.writer.specs.Code.Pass.{job_of};
ghost use Rattle.writer.specs.Code.Records.{CanSplit, DidPutRecord};
ghost use Rattle.writer.specs.Code.Source.{split_bytes, SplitHere};
ghost use Rattle.writer.specs.Code.Segments.{behind_of, HasRest, DidSegment};

use crate::pack::{Flow, put_pieces};
use crate::pen::{Job, Pen};
use crate::source::{Cursor, walk_of};
use content::{Walk, first_segment, next_segment};

// A segment of a record: where it stands, and its length; the place behind it, and what is left of its block there.
#[derive(Clone, Copy)]
pub struct Segment {
    pub from: usize,
    pub len: usize,
    pub at: usize,
    pub left: usize,
}

// The first segment of a record of n bytes.
fn first_of(bytes: &[u8], c: Cursor, n: usize) -> Segment
    requires { SplitHere bytes.now c n }
    ensures { DidSegment bytes.now c (split_bytes bytes.now c) result }
{
    match first_segment(bytes, walk_of(c)) {
        None => Segment {
            from: 0,
            len: 0,
            at: 0,
            left: 0,
        },
        Some(first) => Segment {
            from: first.start,
            len: first.len,
            at: first.behind.at,
            left: first.behind.left,
        },
    }
}

// The segment behind another, where the record goes on.
#[tactic(auto, using(crate::proofs::Splits::nexts))]
fn next_of(bytes: &[u8], c: Cursor, g: Segment) -> Segment
    requires { HasRest bytes.now (behind_of c g) }
    ensures did_segment { DidSegment bytes.now c (bytes_behind bytes.now (behind_of c g)) result }
    ensures at_lt_at { g.at < result.at }
{
    let w = Walk {
        at: g.at,
        left: g.left,
        ..walk_of(c)
    };
    match next_segment(bytes, w) {
        None => g,
        Some(next) => Segment {
            from: next.start,
            len: next.len,
            at: next.behind.at,
            left: next.behind.left,
        },
    }
}

// Packs the record of n bytes that stands at a cursor in several segments.
#[tactic(auto, using(crate::proofs::Splits::splits))]
pub(crate) fn put_split(
    f: u8,
    b: usize,
    bytes: &[u8],
    c: Cursor,
    n: usize,
    job: &Job,
    p: Pen,
    out: &mut [u8],
    lay: bool,
) -> Pen
    requires { CanSplit lay f b (job_of job.now) bytes.now c n p out.old }
    ensures { DidPutRecord lay f b (job_of job.now) (split_bytes bytes.now c) p out.old out.new result }
{
    let mut g = first_of(bytes, c, n);
    let mut s = Flow {
        pen: p,
        left: n,
        seg: 0,
        from: 0,
        begun: false,
        inside: false,
        on: true,
    };
    loop {
        let from = g.from;
        let end = from + g.len;
        let t = put_pieces(f, b, &bytes[from..end], job, s, out, lay);
        let pen = t.pen;
        if pen.short {
            return pen;
        }
        if t.left == 0 {
            return pen;
        }
        s = Flow {
            from: 0,
            on: true,
            ..t
        };
        g = next_of(bytes, c, g);
    }
}
