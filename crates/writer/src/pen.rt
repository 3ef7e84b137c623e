// The pen: where a pass is. It closes a block, changes the reel where there is no more room, and opens the next block; and knows
// nothing of what a block holds.
ghost use Rattle.std.specs.Prelude.{◌≡◌, false, ◌≤◌, ◌<◌, length};
ghost use Rattle.writer.specs.Code.Pass.{job_of};
ghost use Rattle.writer.specs.Code.Pens.{CanOpen, CanClose, DidClose, DidChange, DidOpen, opened};

use base::{part_of, put_in};
use image::put_length;
use sections::{CHANGE, Labels, NAME, NAMES, reel_change};

// The bytes of a length word.
pub(crate) const WORD: usize = 3;

// Where the pass is: the place behind the last closed block, where the length of the open one stands; the bytes of the open
// block; the blocks for which the reel has room; how many reels are begun; the section and its blocks; whether a block is open,
// and whether a reel is lacking.
#[derive(Clone, Copy)]
pub struct Pen {
    pub at: usize,
    pub used: usize,
    pub room: u64,
    pub next: usize,
    pub section: u32,
    pub count: u32,
    pub on: bool,
    pub short: bool,
}

// What the labels of a file are made of, and for how many blocks each of the reels has room.
#[derive(Clone, Copy)]
pub struct Job<'a> {
    pub labels: &'a Labels,
    pub rooms: &'a [u64],
}

// Closes the open block, if one is open.
pub(crate) fn close(p: Pen, out: &mut [u8], lay: bool) -> Pen
    requires { CanClose lay p (length out.old) }
    ensures { DidClose lay p out.old out.new result }
{
    if p.on {
        let r = Pen {
            at: p.at + WORD + p.used,
            used: 0,
            on: false,
            ..p
        };
        if lay {
            put_length(out, p.at, p.used);
        }
        return r;
    }
    p
}

// Opens a block on a reel that has room for it.
pub(crate) fn opened(p: Pen) -> Pen
    requires le_room { 1 ≤ p.room }
    requires count_bound { p.count < 1000000 }
    ensures { result ≡ opened p }
{
    Pen {
        used: 0,
        room: p.room - 1,
        count: p.count + 1,
        on: true,
        short: false,
        ..p
    }
}

// Ends a section on a full reel and begins the next one on the next reel, if there is one.
#[tactic(auto, using(crate::proofs::ReelChanges::changing))]
fn change(job: &Job, p: Pen, out: &mut [u8], lay: bool) -> Pen
    requires on_value { p.on ≡ false }
    requires room_value { p.room ≡ 0 }
    requires can_open { CanOpen lay (job_of job.now) p out.old }
    ensures { DidChange lay (job_of job.now) p out.old out.new result }
{
    let labels = job.labels;
    let rooms = job.rooms;
    let next = p.next;
    if rooms.len() <= next {
        return Pen {
            used: 0,
            on: false,
            short: true,
            ..p
        };
    }
    let r = Pen {
        at: p.at + CHANGE,
        used: 0,
        room: rooms[next],
        next: next + 1,
        section: p.section + 1,
        count: 0,
        on: false,
        short: false,
    };
    if lay {
        let name = part_of(labels, NAMES + NAME * next, NAME);
        let between = reel_change(labels, p.section, p.count, name, p.section + 1);
        put_in(out, p.at, &between);
    }
    r
}

// Closes the open block and opens the next, on the next reel where this one is full.
pub(crate) fn next_block(job: &Job, p: Pen, out: &mut [u8], lay: bool) -> Pen
    requires { CanOpen lay (job_of job.now) p out.old }
    ensures { DidOpen lay (job_of job.now) p out.old out.new result }
{
    let c = close(p, out, lay);
    if c.room != 0 {
        return opened(c);
    }
    let d = change(job, c, out, lay);
    if d.short {
        return d;
    }
    opened(d)
}
