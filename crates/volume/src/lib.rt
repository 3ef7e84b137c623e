// A whole set: the order of its items, the fields and cross-checks of its labels, its blocks; the verdict on an image.
// It knows no byte of a label and no unit of a block by itself: those are the layers' below.

#![tactic(auto)]

mod after; // after.rt: the reading behind an item
mod among; // among.rt: labels and names by their places
mod blocks; // blocks.rt: data blocks passed in a row
mod fault; // fault.rt: the fault of an item against what was read before it
mod frame; // frame.rt: the framing from a wrong item on
mod walk; // walk.rt: the items of an image, one after the other

ghost use Rattle.std.specs.Prelude.{◌≡◌};
ghost use Rattle.volume.specs.Run.{image_verdict};

pub use among::{NAME, is_among};
use base::Verdict;
pub use fault::value_of;
use image::{framing, opens};
use order::Phase;

// What is known behind an item, beside the places of the volumes' names: numbers, and places in the image. A place past the end
// stands for no label.
#[derive(Clone, Copy)]
pub struct Reading {
    pub hdr1: usize,
    pub hdr2: usize,
    pub count: usize,
    pub pending: usize,
    pub files: u32,
    pub phase: Phase,
    pub continues: bool,
}

// The verdict on an image, whatever its bytes: number 0 exactly for an accepted set, else the number and place of the first wrong
// item.
pub fn check(image: &[u8]) -> Verdict
    ensures { result ≡ image_verdict image.now }
{
    if opens(image) {
        return walk::walk(image);
    }
    framing(image)
}
