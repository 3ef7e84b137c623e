// The framing from a spot on: the items before it were read without fault, so they are well framed, and the spot tells how many
// reels have ended.
ghost use Rattle.std.specs.Prelude.{◌≡◌};
ghost use Rattle.order.specs.Kind.{kind};
ghost use Rattle.order.specs.Due.{due_after};
ghost use Rattle.volume.specs.Step.{is_due};
ghost use Rattle.volume.specs.Code.Told.{is_inside, ended_in, closed_in};
ghost use Rattle.volume.specs.Code.Walk.{frame, framed_else, FrameHere};

use base::Verdict;
use image::{Frame, framing_from};
use order::{END_OF_IMAGE, Kind, Phase, VOL, due_after};

// Whether an item of this family and number is due.
#[tactic(auto, unfolding(crate::specs::Step::is_due))]
fn is_due(phase: Phase, family: u32, number: u32) -> bool
    ensures { result ≡ is_due (due_after phase (kind family number)) }
{
    match due_after(phase, Kind { family, number }) {
        Some(_) => true,
        None => false,
    }
}

// Whether a phase is inside a reel.
fn is_inside(phase: Phase) -> bool
    ensures { result ≡ is_inside phase }
{
    if is_due(phase, VOL, 1) {
        return false;
    }
    !is_due(phase, END_OF_IMAGE, 0)
}

// The frame of a place: as many reels have ended as have begun, but for the one that goes on.
fn frame_at(at: usize, item: u32, phase: Phase, reels: usize) -> Frame
    ensures { result ≡ frame at item (ended_in phase reels) (closed_in phase reels) }
{
    if reels == 0 {
        return Frame {
            at,
            reels: 0,
            item,
            closed: false,
        };
    }
    if is_inside(phase) {
        return Frame {
            at,
            reels: reels - 1,
            item,
            closed: false,
        };
    }
    Frame {
        at,
        reels,
        item,
        closed: true,
    }
}

// Number 2 of what is left from a place on, or else v: what stands before it is well framed.
pub(crate) fn framed_or(
    image: &[u8],
    at: usize,
    item: u32,
    phase: Phase,
    reels: usize,
    v: Verdict,
) -> Verdict
    requires { FrameHere image.now at item reels }
    ensures { result ≡ framed_else image.now at item phase reels v }
{
    let f = framing_from(image, frame_at(at, item, phase, reels));
    if f.number == 0 {
        return v;
    }
    f
}
