// The items of an image, one after the other, up to the first wrong one. It knows what a turn does, and asks the layers below
// what is right.
ghost use Rattle.std.specs.Prelude.{◌≡◌, [], ◌+◌, ◌≤◌, ◌<◌, length};
ghost use Rattle.base.specs.Part.{part};
ghost use Rattle.image.specs.Item.{block};
ghost use Rattle.image.specs.Framing.{most_image, items};
ghost use Rattle.volume.specs.State.{start as begin};
ghost use Rattle.volume.specs.Step.{kind_in};
ghost use Rattle.volume.specs.Code.Told.{told_from};
ghost use Rattle.volume.specs.Code.Body.{Given};
ghost use Rattle.volume.specs.Code.Walk.{told_at, told_by, told_due, told_end, last_turn, on_turn, bare_turn, in_phase, BlockHere, BareHere, DidStart, DidPass, FrameHere, Bounded, LabelSized, DidGoOn, DidTurn};

use crate::Reading;
use crate::after::reading_after;
use crate::blocks::{Between, Lengths, past_blocks};
use crate::fault::{item_fault, value_of};
use crate::frame::framed_or;
use base::{Fault, Verdict, part_of};
use image::{Shape, block_length_at};
use label::{VOLUME, block_length, format_of, offset_length, record_length};
use order::{
    DATA_BLOCK, END_OF_IMAGE, END_OF_REEL, Kind, OTHER, Phase, TAPE_MARK, VOL, due_after, is,
};

// A place in the image: what is known before it, and the number of the item that stands there.
#[derive(Clone, Copy)]
pub struct Spot {
    pub at: usize,
    pub state: Reading,
    pub item: u32,
}

// What a turn of the walk leads to: on from a spot, past the name of a volume or not; or the end at a spot, with a fault or
// with none.
#[derive(Clone, Copy)]
pub struct Turn {
    pub spot: Spot,
    pub fault: Fault,
    pub name: usize,
    pub on: bool,
    pub named: bool,
}

// A turn that ends the walk.
fn last(x: Spot, number: u32, byte: u32) -> Turn
    ensures { result ≡ last_turn x number byte }
{
    Turn {
        spot: x,
        fault: Fault { number, byte },
        name: 0,
        on: false,
        named: false,
    }
}

// A turn that goes on.
fn on(at: usize, item: u32, state: Reading, named: bool, name: usize) -> Turn
    ensures { result ≡ on_turn at item state named name }
{
    Turn {
        spot: Spot { at, state, item },
        fault: Fault { number: 0, byte: 0 },
        name,
        on: true,
        named,
    }
}

// A turn that goes on past a block of n bytes, which is of kind k and has no fault.
fn go_on(image: &[u8], x: Spot, p: Phase, k: Kind, n: usize) -> Turn
    requires label_sized { LabelSized k n }
    requires block_here { BlockHere image.now x n }
    ensures { DidGoOn image.now x p k n result }
{
    let st = x.state;
    let start = x.at + 3;
    let end = start + n;
    let item = x.item + 1;
    on(
        end,
        item,
        reading_after(image, st, p, k, start, n),
        is(k, VOL, 1),
        start + VOLUME,
    )
}

// The turn of a block of n bytes that is due, with phase p behind it: past it, or its fault.
fn judge(image: &[u8], volumes: &[usize], x: Spot, p: Phase, k: Kind, n: usize) -> Turn
    requires label_sized { LabelSized k n }
    requires block_here { BlockHere image.now x n }
    ensures { DidTurn image.now volumes.now x.at
        (told_due image.now volumes.now x p k (part (x.at + 3) n image.now) (x.at + 3 + n)) result }
{
    let st = x.state;
    let start = x.at + 3;
    let end = start + n;
    let f = item_fault(image, volumes, st, k, &image[start..end]);
    if f.number != 0 {
        return last(x, f.number, f.byte);
    }
    go_on(image, x, p, k, n)
}

// The turn of a block of n bytes and of kind k: 3 where it is not due.
fn order_turn(image: &[u8], volumes: &[usize], x: Spot, k: Kind, n: usize) -> Turn
    requires label_sized { LabelSized k n }
    requires block_here { BlockHere image.now x n }
    ensures { DidTurn image.now volumes.now x.at
        (told_by image.now volumes.now x k (part (x.at + 3) n image.now) (x.at + 3 + n)) result }
{
    let st = x.state;
    let phase = st.phase;
    match due_after(phase, k) {
        None => last(x, 3, 0),
        Some(p) => judge(image, volumes, x, p, k, n),
    }
}

// The turn at the end of the image.
fn end_turn(image: &[u8], volumes: &[usize], x: Spot) -> Turn
    requires bounded { Bounded image.now x.at x.item x.state }
    requires image_len_bound { length image.now ≤ x.at }
    ensures { DidTurn image.now volumes.now x.at
        (told_at image.now volumes.now x) result }
{
    let st = x.state;
    let phase = st.phase;
    let k = Kind {
        family: END_OF_IMAGE,
        number: 0,
    };
    match due_after(phase, k) {
        None => last(x, 3, 0),
        Some(_) => last(x, 0, 0),
    }
}

// What a block is in that phase: data where data is due, else a label.
fn kind_in(phase: Phase, l: &[u8]) -> Kind
    ensures { result ≡ kind_in phase (block l.now) }
{
    let k = Kind {
        family: DATA_BLOCK,
        number: 0,
    };
    match due_after(phase, k) {
        None => label::kind(l),
        Some(_) => k,
    }
}

// The turn of a block of n bytes.
fn block_turn(image: &[u8], volumes: &[usize], x: Spot, n: usize) -> Turn
    requires { BlockHere image.now x n }
    ensures { DidTurn image.now volumes.now x.at
        (told_at image.now volumes.now x) result }
{
    let st = x.state;
    let phase = st.phase;
    let start = x.at + 3;
    let end = start + n;
    let k = kind_in(phase, &image[start..end]);
    order_turn(image, volumes, x, k, n)
}

// The state behind an item without bytes: only the phase is another.
fn in_phase(st: Reading, p: Phase) -> Reading
    ensures { result ≡ in_phase st p }
{
    Reading {
        hdr1: st.hdr1,
        hdr2: st.hdr2,
        count: st.count,
        pending: st.pending,
        files: st.files,
        phase: p,
        continues: st.continues,
    }
}

// A turn that goes on past an item without bytes, with phase p behind it.
fn pass(x: Spot, p: Phase) -> Turn
    requires item_le_at { x.item ≤ x.at }
    requires at_bound { x.at + 3 ≤ most_image }
    ensures { result ≡ bare_turn x p }
{
    let st = x.state;
    on(x.at + 3, x.item + 1, in_phase(st, p), false, 0)
}

// The turn of a mark or the end of a reel, which has no fault where it is due.
fn bare_turn(image: &[u8], volumes: &[usize], x: Spot, family: u32) -> Turn
    requires { BareHere image.now x family }
    ensures { DidTurn image.now volumes.now x.at
        (told_at image.now volumes.now x) result }
{
    let st = x.state;
    let phase = st.phase;
    let k = Kind { family, number: 0 };
    match due_after(phase, k) {
        None => last(x, 3, 0),
        Some(p) => pass(x, p),
    }
}

// The turn of the item that stands here.
fn item_turn(image: &[u8], volumes: &[usize], x: Spot) -> Turn
    requires bounded { Bounded image.now x.at x.item x.state }
    requires at_in_bounds { x.at < length image.now }
    ensures { DidTurn image.now volumes.now x.at
        (told_at image.now volumes.now x) result }
{
    let at = x.at;
    match image::shape_at(image, at) {
        Shape::Block(n) => block_turn(image, volumes, x, n),
        Shape::Mark => bare_turn(image, volumes, x, TAPE_MARK),
        Shape::ReelEnd => bare_turn(image, volumes, x, END_OF_REEL),
        Shape::Broken => last(x, 3, 0),
    }
}

// The turn at a spot.
fn take_turn(image: &[u8], volumes: &[usize], x: Spot) -> Turn
    requires { Bounded image.now x.at x.item x.state }
    ensures { DidTurn image.now volumes.now x.at
        (told_at image.now volumes.now x) result }
{
    if image.len() <= x.at {
        return end_turn(image, volumes, x);
    }
    item_turn(image, volumes, x)
}

// The lengths of the blocks of a section, as its HDR2 gives them.
fn lengths_of(hdr2: &[u8]) -> Lengths
    ensures { Given result hdr2.now }
{
    Lengths {
        format: format_of(hdr2),
        block: value_of(block_length(hdr2)) as usize,
        record_length: value_of(record_length(hdr2)),
        offset: value_of(offset_length(hdr2)) as usize,
    }
}

// The spot behind the data blocks that stand here in a row without fault.
fn past_data(image: &[u8], x: Spot) -> Spot
    requires bounded { Bounded image.now x.at x.item x.state }
    requires phase_value { x.state.phase ≡ Phase.Data }
    ensures { DidPass image.now x result }
{
    let st = x.state;
    let from = Between {
        at: x.at,
        item: x.item,
        count: st.count,
        pending: st.pending,
    };
    let b = past_blocks(image, lengths_of(part_of(image, st.hdr2, 80)), from);
    let state = Reading {
        hdr1: st.hdr1,
        hdr2: st.hdr2,
        count: b.count,
        pending: b.pending,
        files: st.files,
        phase: Phase::Data,
        continues: st.continues,
    };
    Spot {
        at: b.at,
        state,
        item: b.item,
    }
}

// The spot behind the data blocks that stand here, if any.
fn past(image: &[u8], x: Spot) -> Spot
    requires { Bounded image.now x.at x.item x.state }
    ensures { DidPass image.now x result }
{
    let st = x.state;
    let phase = st.phase;
    match phase {
        Phase::Data => past_data(image, x),
        _ => x,
    }
}

// The spot of the first item.
fn first_spot(image: &[u8]) -> Spot
    requires in_bounds { 5 ≤ length image.now }
    requires image_len_bound { length image.now ≤ most_image }
    ensures { DidStart image.now [] result }
{
    Spot {
        at: 5,
        state: Reading {
            hdr1: image.len(),
            hdr2: image.len(),
            count: 0,
            pending: 0,
            files: 0,
            phase: Phase::Reel,
            continues: false,
        },
        item: 0,
    }
}

// The verdict where a walk ends: that of the fault, or of the framing from there on.
fn ended(image: &[u8], volumes: &[usize], x: Spot, f: Fault) -> Verdict
    requires { FrameHere image.now x.at x.item (length volumes.now) }
    ensures { result ≡ told_end image.now volumes.now x f }
{
    if f.number == 0 {
        return Verdict {
            number: 0,
            item: 0,
            byte: 0,
        };
    }
    let st = x.state;
    let phase = st.phase;
    let v = Verdict {
        number: f.number,
        item: x.item,
        byte: f.byte,
    };
    framed_or(image, x.at, x.item, phase, volumes.len(), v)
}

// The verdict on the items of an image, up to the first wrong one, and on the framing from there on.
pub(crate) fn walk(image: &[u8]) -> Verdict
    requires in_bounds { 5 ≤ length image.now }
    requires image_len_bound { length image.now ≤ most_image }
    ensures { result ≡ told_from 0 begin (items image.now) }
{
    let mut volumes = [0usize; 16];
    let mut reels: usize = 0;
    let mut x = first_spot(image);
    loop {
        let t = take_turn(image, &volumes[..reels], past(image, x));
        x = t.spot;
        if t.on {
            if t.named {
                volumes[reels] = t.name;
                reels += 1;
            }
        } else {
            return ended(image, &volumes[..reels], x, t.fault);
        }
    }
}
