// The packing of a record, or of pieces of one, into blocks.
ghost use Rattle.std.specs.Prelude.{◌≡◌, true, ◌+◌, ◌≤◌, length};
ghost use Rattle.writer.specs.Code.Pass.{job_of};
ghost use Rattle.writer.specs.Code.Packs.{enters_on, more, DidPutPart, CanPutHead, DidPutHead, CanSpell, DidSpell, DidTakeTurn, CanPack, DidPack};

use crate::pen::{Job, Pen, WORD, close, next_block};
use base::put_in;
use block::{enters, indicator, put_word, smaller, taken, word_of};
use output::four_digits;

// Where the packing of a record is: the pen; the bytes that are left of the record, and of its open unit; the place in the piece;
// whether the record has a unit already, whether one is open, and whether there is more to be packed of the piece.
#[derive(Clone, Copy)]
pub struct Flow {
    pub pen: Pen,
    pub left: usize,
    pub seg: usize,
    pub from: usize,
    pub begun: bool,
    pub inside: bool,
    pub on: bool,
}

// Whether a record of which n bytes remain enters the block that is open, if one is.
#[tactic(auto, unfolding(crate::specs::Code::Packs::enters_on, base::specs::If::if_b))]
pub(crate) fn enters_on(f: u8, b: usize, is_on: bool, u: usize, n: usize) -> bool
    ensures { result ≡ enters_on f b is_on u n }
{
    if is_on {
        return enters(f, b, u, n);
    }
    false
}

// The pen with n bytes more in its block.
pub(crate) fn more(p: Pen, n: usize) -> Pen
    requires { p.used + n ≤ 99999 }
    ensures { result ≡ more p n }
{
    Pen {
        used: p.used + n,
        on: true,
        short: false,
        ..p
    }
}

// Begins a unit of the record, which enters the open block: its control word.
fn put_head(f: u8, b: usize, s: Flow, out: &mut [u8], lay: bool) -> Flow
    requires { CanPutHead lay f b s (length out.old) }
    ensures { DidPutHead lay f b s out.old out.new result }
{
    let p = s.pen;
    let k = taken(f, b, p.used, s.left);
    let w = word_of(f as u32);
    let pen = more(p, w);
    let r = Flow {
        pen,
        seg: k,
        inside: true,
        on: true,
        ..s
    };
    if lay {
        let i = indicator(s.begun as u8, k, s.left);
        let d = four_digits(k + w);
        put_word(out, p.at + WORD + p.used, f, i, d);
    }
    r
}

// Writes the bytes of the piece that belong to the open unit.
fn spell(piece: &[u8], s: Flow, out: &mut [u8], lay: bool) -> Flow
    requires { CanSpell lay (length piece.now) s (length out.old) }
    ensures { DidSpell lay piece.now s out.old out.new result }
{
    let p = s.pen;
    let from = s.from;
    let m = smaller(s.seg, piece.len() - from);
    let end = from + m;
    let pen = more(p, m);
    let r = Flow {
        pen,
        left: s.left - m,
        seg: s.seg - m,
        from: end,
        inside: true,
        on: end < piece.len(),
        ..s
    };
    if lay {
        put_in(out, p.at + WORD + p.used, &piece[from..end]);
    }
    r
}

// Writes the bytes of the piece that belong to the open unit; where the unit is over and the record goes on, the block is closed.
fn put_part(piece: &[u8], s: Flow, out: &mut [u8], lay: bool) -> Flow
    requires { CanSpell lay (length piece.now) s (length out.old) }
    ensures { DidPutPart lay piece.now s out.old out.new result }
{
    let t = spell(piece, s, out, lay);
    if t.seg == 0 {
        if 0 < t.left {
            let p = t.pen;
            let pen = close(p, out, lay);
            return Flow {
                pen,
                seg: 0,
                begun: true,
                inside: false,
                ..t
            };
        }
    }
    t
}

// One turn: the rest of the open unit; or the next unit is begun; or, where it does not enter the open block, the next block.
fn take_turn(f: u8, b: usize, piece: &[u8], job: &Job, s: Flow, out: &mut [u8], lay: bool) -> Flow
    requires { CanPack lay f b (job_of job.now) piece.now s out.old }
    ensures { DidTakeTurn lay f b (job_of job.now) piece.now s out.old out.new result }
{
    if s.inside {
        return put_part(piece, s, out, lay);
    }
    let p = s.pen;
    if enters_on(f, b, p.on, p.used, s.left) {
        return put_head(f, b, s, out, lay);
    }
    let pen = next_block(job, p, out, lay);
    Flow {
        pen,
        inside: false,
        on: !pen.short,
        ..s
    }
}

// Packs a record, or a piece of one.
pub(crate) fn put_pieces(
    f: u8,
    b: usize,
    piece: &[u8],
    job: &Job,
    first: Flow,
    out: &mut [u8],
    lay: bool,
) -> Flow
    requires can_pack { CanPack lay f b (job_of job.now) piece.now first out.old }
    requires on_value { first.on ≡ true }
    ensures { DidPack lay f b (job_of job.now) piece.now first out.old out.new result }
{
    let mut s = first;
    while s.on {
        s = take_turn(f, b, piece, job, s, out, lay);
    }
    s
}
