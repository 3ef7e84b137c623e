// A record that stands in one piece, packed into blocks: most often it goes whole into the open block or into the next one.
ghost use Rattle.std.specs.Prelude.{◌≡◌, true, false, ◌≤◌, min, length};
ghost use Rattle.base.specs.Digits.{digits};
ghost use Rattle.base.specs.Part.{part, put_in};
ghost use Rattle.block.specs.Room.{word_with};
ghost use Rattle.writer.specs.Code.Pass.{job_of};
ghost use Rattle.writer.specs.Code.Records.{GoesIn, GoesNext, CanPutWhole, DidPutWhole, CanPutRecord, DidPutRecord, CanQuickBlock, DidQuickBlock};

use crate::form::Form;
use crate::pack::{Flow, enters_on, more, put_pieces};
use crate::pen::{Job, Pen, WORD, close, opened};
use base::{FIXED, put_short};
use block::put_word;
use output::figures;

// Whether a record of n bytes goes whole into the block that is open.
#[tactic(auto, using(crate::proofs::Written::word_small))]
fn goes_in(form: Form, p: Pen, n: usize) -> bool
    requires { p.used ≤ 99999 }
    ensures { result ≡ true → GoesIn form.format form.block p.on p.used n }
{
    n <= form.most && p.on && p.used + form.word + n <= form.block
}

// Whether it goes whole into the next block, on this reel.
#[tactic(auto, using(crate::proofs::Written::word_small))]
fn goes_next(form: Form, p: Pen, n: usize) -> bool
    ensures { result ≡ true → GoesNext form.format form.block p.on p.used p.room n }
{
    n <= form.most
        && form.word + n <= form.block
        && 0 < p.room
        && !enters_on(form.format, form.block, p.on, p.used, n)
}

// Writes the control word of a whole record, which has n bytes with it; a record of an F file has none, and takes no digits.
#[tactic(auto, using(crate::proofs::Written::saids))]
fn put_said(out: &mut [u8], at: usize, f: u8, n: usize)
    ensures { out.new ≡ put_in out.old at (word_with f 48 (digits 4 (min n 9999))) }
{
    if f == FIXED {
        return;
    }
    put_word(out, at, f, b'0', figures(n));
}

// Writes a whole record into the open block, its control word before it.
fn put_whole(
    form: Form,
    bytes: &[u8],
    from: usize,
    n: usize,
    p: Pen,
    out: &mut [u8],
    lay: bool,
) -> Pen
    requires { CanPutWhole lay form.format bytes.now from n p (length out.old) }
    ensures { DidPutWhole lay form.format bytes.now from n p out.old out.new result }
{
    let r = more(p, form.word + n);
    if lay {
        let at = p.at + WORD + p.used;
        let end = from + n;
        put_said(out, at, form.format, form.word + n);
        put_short(out, at + form.word, &bytes[from..end]);
    }
    r
}

// Packs a record that does not go whole into the open block, nor into the next on this reel.
fn put_slow(
    f: u8,
    b: usize,
    bytes: &[u8],
    from: usize,
    n: usize,
    job: &Job,
    p: Pen,
    out: &mut [u8],
    lay: bool,
) -> Pen
    requires { CanPutRecord lay f b (job_of job.now) bytes.now from n p out.old }
    ensures { DidPutRecord lay f b (job_of job.now) (part from n bytes.now) p out.old out.new result }
{
    let end = from + n;
    let first = Flow {
        pen: p,
        left: n,
        seg: 0,
        from: 0,
        begun: false,
        inside: false,
        on: true,
    };
    let s = put_pieces(f, b, &bytes[from..end], job, first, out, lay);
    s.pen
}

// The block for a record that goes whole into the open block, or into the next of this reel; for any other nothing is done.
fn quick_block(form: Form, n: usize, p: Pen, out: &mut [u8], lay: bool) -> Option<Pen>
    requires { CanQuickBlock lay form.format form.block n p out.old }
    ensures { DidQuickBlock lay form.format form.block n p out.old out.new result }
{
    if goes_in(form, p, n) {
        return Some(p);
    }
    if goes_next(form, p, n) {
        let c = close(p, out, lay);
        return Some(opened(c));
    }
    None
}

// Packs a record that stands in one piece: whole into a block, or wherever it has room.
pub(crate) fn put_piece(
    form: Form,
    bytes: &[u8],
    from: usize,
    n: usize,
    job: &Job,
    p: Pen,
    out: &mut [u8],
    lay: bool,
) -> Pen
    requires { CanPutRecord lay form.format form.block (job_of job.now) bytes.now from n p out.old }
    ensures { DidPutRecord lay form.format form.block (job_of job.now) (part from n bytes.now) p out.old out.new result }
{
    match quick_block(form, n, p, out, lay) {
        Some(q) => put_whole(form, bytes, from, n, q, out, lay),
        None => put_slow(form.format, form.block, bytes, from, n, job, p, out, lay),
    }
}
