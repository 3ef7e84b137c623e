// The parts of an image, one after the other: the one search over its items, whatever its bytes. It knows the order of a reel and
// the kinds of labels.
ghost use Rattle.std.specs.Prelude.{◌≡◌, ◌+◌, ◌<◌};
ghost use Rattle.content.specs.Part.{begins_file, led_to, continues_behind, first_behind, after, part_in, parts_at, is_wanted, first_from, next_part};
ghost use Rattle.content.specs.Code.Seen.{seen_in};

use crate::items::{Seen, seen_at};
use order::{DATA_BLOCK, EOF, EOV, HDR, Kind, Phase, due_after, is};

// What a search has to know to go on: the place between two items, the place of the last HDR1, what is due there, and whether the
// next HDR1 goes on with a file.
#[derive(Clone, Copy)]
pub struct Position {
    pub at: usize,
    pub hdr1: usize,
    pub phase: Phase,
    pub continues: bool,
}

// A part of an image: a file that begins and a section that goes on with one, by the places of their HDR1 and HDR2, and a data
// block, by the place of its first byte and its length.
#[derive(Clone, Copy)]
pub enum Part {
    File(usize, usize),
    Section(usize, usize),
    Block(usize, usize),
}

// A part, and the place behind it. Where there is none, the place is that of the search.
#[derive(Clone, Copy)]
pub struct PartAt {
    pub part: Option<Part>,
    pub behind: Position,
}

// What stands at a place, in that phase: where data is due, a block is data.
fn seen_in(image: &[u8], phase: Phase, at: usize) -> Option<Seen>
    ensures { result ≡ seen_in image.now phase at }
{
    let k = Kind {
        family: DATA_BLOCK,
        number: 0,
    };
    match due_after(phase, k) {
        None => seen_at(image, at, false),
        Some(_) => seen_at(image, at, true),
    }
}

// Whether an item begins a file: HDR2, but not of a file that goes on.
fn begins_file(continues: bool, k: Kind) -> bool
    ensures { result ≡ begins_file continues k }
{
    if is(k, HDR, 2) {
        return !continues;
    }
    false
}

// Where an item leads: one that begins a file right behind its HDR2, any other where it is due.
fn led_to(continues: bool, phase: Phase, k: Kind) -> Option<Phase>
    ensures { result ≡ led_to continues phase k }
{
    if begins_file(continues, k) {
        return Some(Phase::Header(2));
    }
    due_after(phase, k)
}

// Whether the next HDR1 goes on with a file.
fn continues_behind(continues: bool, k: Kind) -> bool
    ensures { result ≡ continues_behind continues k }
{
    if is(k, EOV, 1) {
        return true;
    }
    if is(k, EOF, 1) {
        return false;
    }
    continues
}

// The place of the last HDR1, behind an item whose bytes begin at `start`.
fn first_behind(hdr1: usize, start: usize, k: Kind) -> usize
    ensures { result ≡ first_behind hdr1 start k }
{
    if is(k, HDR, 1) {
        return start;
    }
    hdr1
}

// Which part an item is, with its n bytes from `start` on, if it is one.
fn part_in(continues: bool, hdr1: usize, start: usize, n: usize, k: Kind) -> Option<Part>
    ensures { result ≡ part_in continues hdr1 start n k }
{
    if is(k, DATA_BLOCK, 0) {
        return Some(Part::Block(start, n));
    }
    if is(k, HDR, 2) {
        if continues {
            return Some(Part::Section(hdr1, start));
        }
        return Some(Part::File(hdr1, start));
    }
    None
}

// Whether a part is one that is looked for.
fn is_wanted(sections: bool, blocks: bool, part: Option<Part>) -> bool
    ensures { result ≡ is_wanted sections blocks part }
{
    let Some(found) = part else {
        return false;
    };
    match found {
        Part::File(_, _) => true,
        Part::Section(_, _) => sections,
        Part::Block(_, _) => blocks,
    }
}

// The place behind an item of kind k and n bytes that leads to phase q.
fn position_behind(c: Position, k: Kind, n: usize, q: Phase) -> Position
    requires { c.at + 3 + n < 18446744073709551616 }
    ensures { result ≡ after c k n q }
{
    let start = c.at + 3;
    Position {
        at: start + n,
        hdr1: first_behind(c.hdr1, start, k),
        phase: q,
        continues: continues_behind(c.continues, k),
    }
}

// The first file from a place on, or section or block where they are looked for.
pub(crate) fn search(image: &[u8], from: Position, sections: bool, blocks: bool) -> PartAt
    ensures { result ≡ first_from from sections blocks (parts_at image.now from) }
{
    let mut here = from;
    loop {
        let Some(seen) = seen_in(image, here.phase, here.at) else {
            return PartAt {
                part: None,
                behind: from,
            };
        };
        let Some(next) = led_to(here.continues, here.phase, seen.kind) else {
            return PartAt {
                part: None,
                behind: from,
            };
        };
        let part = part_in(here.continues, here.hdr1, here.at + 3, seen.len, seen.kind);
        // The place moves on in each case by itself: with one place for both, a block that is passed takes a fifth more instructions.
        if is_wanted(sections, blocks, part) {
            let behind = position_behind(here, seen.kind, seen.len, next);
            return PartAt { part, behind };
        }
        here = position_behind(here, seen.kind, seen.len, next);
    }
}

// The next part from a place on, be that right or forged.
pub fn next_part(image: &[u8], from: Position) -> PartAt
    ensures { result ≡ next_part image.now from }
{
    search(image, from, true, true)
}
