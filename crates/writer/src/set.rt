// All files of a set laid down one after the other, from the first reel to the end of the last. It knows how the slices of a
// sheet hold a file, and how an image does.
ghost use Rattle.std.specs.Prelude.{◌≡◌, true, ◌+◌, ◌≤◌, ◌<◌, length, get_or};
ghost use Rattle.base.specs.Part.{part, put_at};
ghost use Rattle.sections.specs.Section.{image_head};
ghost use Rattle.writer.specs.Code.Pass.{ink_at, names_in};
ghost use Rattle.writer.specs.Code.Sets.{CanCount, cursor_at, CanEnter, entry_at, DidEnter, behind_file, task_of, CanEndSet, DidEndSet, first_pen, DidLaySet, set_laid, CanLaySet};

use crate::file::put_file;
use crate::pen::{Job, Pen};
use crate::source::Cursor;
use base::{part_of, put_in};
use content::{FileAt, file_behind};
use label::{
    DATED_WIDTH, ENTRY, FORMAT_IN, FORMATTED_WIDTH, GENERATION, GENERATION_IN, IDENTIFIER,
    IDENTIFIER_IN, IDENTIFIER_WIDTH, RECORD_FORMAT,
};
use sections::{HEAD, Labels, NAME, NAMES, REEL_END, SEQUENCE, image_head, reel_end};

// The bytes of a label.
pub(crate) const LABEL: usize = 80;

// Where files come from: the slices of a sheet, or an accepted image, whose bytes then stand in `bytes`.
#[derive(Clone, Copy)]
pub struct Input<'a> {
    pub files: &'a [u8],
    pub counts: &'a [u64],
    pub lengths: &'a [u64],
    pub bytes: &'a [u8],
    pub image: bool,
}

// A place among the files: how many are passed; of a sheet, the next length and the next byte; of an image, the next file; and
// whether there is a next file to be laid.
#[derive(Clone, Copy)]
pub struct Place {
    pub nth: usize,
    pub first: usize,
    pub byte: usize,
    pub file: FileAt,
    pub on: bool,
}

// ---- one file

// The label parts with s at a place.
pub(crate) fn with_part(labels: Labels, at: usize, s: &[u8]) -> Labels
    requires { at + length s.now ≤ 149 }
    ensures { result ≡ put_at labels at s.now }
{
    let mut made = labels;
    put_in(&mut made, at, s);
    made
}

// The cursor at the first record of the file at a place.
#[tactic(auto, unfolding(crate::specs::Code::Sets::cursor_at, base::specs::If::if_b))]
fn cursor_at(input: &Input, g: Place) -> Cursor
    requires { CanCount input.now.image input.now.counts.now (length input.now.lengths.now) g }
    ensures { result ≡ cursor_at input.now.image input.now.counts.now g }
{
    if input.image {
        let f = g.file;
        let w = f.walk;
        return Cursor {
            at: w.at,
            left: w.left,
            stop: 0,
            offset: w.offset,
            record_length: w.record_length,
            format: w.format,
            image: true,
        };
    }
    let i = g.nth;
    let count = input.counts[i] as usize;
    Cursor {
        at: g.byte,
        left: count,
        stop: g.first + count,
        offset: 0,
        record_length: 0,
        format: 0,
        image: false,
    }
}

// The label parts with the number and the entry of the file at a place: of an image, the fields of its first HDR1 and HDR2.
#[tactic(auto, using(crate::proofs::LabelParts::entering))]
fn entered(labels: Labels, input: &Input, g: Place) -> Labels
    requires { CanEnter input.now.image (length input.now.files.now) (length input.now.bytes.now) g }
    ensures { DidEnter labels (entry_at input.now.image input.now.files.now input.now.bytes.now g) (g.nth + 1) result }
{
    let files = input.files;
    let bytes = input.bytes;
    let i = g.nth;
    let mut numbered = labels;
    numbered[SEQUENCE] = (i + 1) as u8;
    if input.image {
        let f = g.file;
        let first = part_of(bytes, f.hdr1, LABEL);
        let second = part_of(bytes, f.hdr2, LABEL);
        let name = part_of(first, IDENTIFIER, IDENTIFIER_WIDTH);
        let dates = part_of(first, GENERATION, DATED_WIDTH);
        let lengths = part_of(second, RECORD_FORMAT, FORMATTED_WIDTH);
        let named = with_part(numbered, IDENTIFIER_IN, name);
        let dated = with_part(named, GENERATION_IN, dates);
        return with_part(dated, FORMAT_IN, lengths);
    }
    with_part(numbered, 0, part_of(files, ENTRY * i, ENTRY))
}

// The place behind a file, whose lengths end at `stop` and whose records end at `end`, unless a reel is lacking. The next file of
// an image is looked for from there on.
#[tactic(auto, unfolding(crate::specs::Code::Sets::behind_file, crate::specs::Code::Sets::followed_by, base::specs::If::if_b))]
fn behind(input: &Input, g: Place, stop: usize, end: usize, short: bool) -> Place
    requires { g.nth < 64 }
    ensures { result ≡ behind_file input.now.image input.now.counts.now input.now.bytes.now g stop end short }
{
    let bytes = input.bytes;
    let nth = g.nth + 1;
    let file = g.file;
    let over = Place {
        nth,
        first: stop,
        byte: end,
        file,
        on: false,
    };
    if short {
        return over;
    }
    if input.image {
        return match file_behind(bytes, file.hdr1, end) {
            None => over,
            Some(next) => Place {
                file: next,
                on: true,
                ..over
            },
        };
    }
    Place {
        on: nth < input.counts.len(),
        ..over
    }
}

// ---- the set

// Ends the last reel, unless a reel is lacking.
#[tactic(auto, using(crate::proofs::Sets::closings))]
fn end_set(p: Pen, out: &mut [u8], lay: bool) -> Pen
    requires { CanEndSet lay p (length out.old) }
    ensures { DidEndSet lay p out.old out.new result }
{
    if p.short {
        return p;
    }
    let r = Pen {
        at: p.at + REEL_END,
        used: 0,
        on: false,
        short: false,
        ..p
    };
    if lay {
        put_in(out, p.at, &reel_end());
    }
    r
}

// Begins a set on its first reel: the head of the image and the volume label.
#[tactic(auto, using(crate::proofs::Sets::set_begins))]
fn begin_set(labels: Labels, rooms: &[u64], out: &mut [u8], lay: bool) -> Pen
    requires in_bounds { 1 ≤ length rooms.now }
    requires in_bounds_2 { lay ≡ true → 88 ≤ length out.old }
    ensures value { result ≡ first_pen (get_or rooms.now 0 0) }
    ensures out_after { out.new ≡ ink_at lay out.old 0 (image_head (names_in 1 labels)) }
{
    let r = Pen {
        at: HEAD,
        used: 0,
        room: rooms[0],
        next: 1,
        section: 1,
        count: 0,
        on: false,
        short: false,
    };
    if lay {
        put_in(out, 0, &image_head(part_of(&labels, NAMES, NAME)));
    }
    r
}

// Lays a set down at the front of a buffer: all files from the first on. Where the pass does not lay, it only counts.
#[tactic(auto, using(crate::proofs::Sets::sets))]
pub(crate) fn lay_set(
    input: &Input,
    start: Place,
    labels: Labels,
    rooms: &[u64],
    out: &mut [u8],
    lay: bool,
) -> Pen
    requires { CanLaySet lay (task_of input.now labels rooms.now) start out.old }
    ensures { DidLaySet lay (set_laid (task_of input.now labels rooms.now) start) out.old out.new result }
{
    let lengths = input.lengths;
    let bytes = input.bytes;
    let mut pen = begin_set(labels, rooms, out, lay);
    let mut g = start;
    while g.on {
        let c = cursor_at(input, g);
        let made = entered(labels, input, g);
        let job = Job {
            labels: &made,
            rooms,
        };
        let x = put_file(lengths, bytes, c, &job, pen, out, lay);
        pen = x.pen;
        g = behind(input, g, c.stop, x.end, pen.short);
    }
    end_set(pen, out, lay)
}
