// Records in a row: as many steps at once as a pair of lists has room for. It joins no record.
ghost use Rattle.std.specs.Prelude.{◌≡◌};
ghost use Rattle.base.specs.Part.{put_at};
ghost use Rattle.content.specs.Walk.{record_at};
ghost use Rattle.content.specs.Row.{steps_in, row_of};
ghost use Rattle.content.specs.Code.Heads.{whole_by};

use crate::Walk;
use crate::measuring::{Measured, at_block, begun_at, measure_units, whole_at};
use crate::unit::{Taken, moved};
use block::word_of;

// How many records were handed out, and the walk behind the last of them.
#[repr(C)]
#[derive(Clone, Copy)]
pub struct Row {
    pub count: u64,
    pub walk: Walk,
}

// So many records, up to this walk.
fn row_to(count: usize, walk: Walk) -> Row
    ensures { result ≡ record { count = count; walk = walk } }
{
    Row {
        count: count as u64,
        walk,
    }
}

// The record at a walk's place, where it is one unit, wherever that is. One that begins with a segment is not measured.
fn whole_from(image: &[u8], w: Walk) -> Option<Taken>
    ensures { result ≡ whole_by (record_at image.now w) }
{
    let v = at_block(image, w);
    let k = begun_at(image, v.format, v.record_length, v.at, v.left);
    if k != 0 {
        return None;
    }
    let Some(measured) = measure_units(image, w) else {
        return None;
    };
    let Measured::Whole(start, len, behind) = measured else {
        return None;
    };
    Some(Taken {
        indicator: 0,
        start,
        len,
        behind,
    })
}

// The records from a walk on that are parts of the image, by their places and lengths: as many as both lists have room for, up to
// the first that must be joined or is not there. What is behind them in the lists stays.
pub fn steps(image: &[u8], from: Walk, places: &mut [u64], lengths: &mut [u64]) -> Row
    ensures value { result ≡ row_of (steps_in image.now places.old lengths.old from) }
    ensures places_after { places.new ≡ put_at places.old 0 (steps_in image.now places.old lengths.old from).places }
    ensures lengths_after { lengths.new ≡ put_at lengths.old 0 (steps_in image.now places.old lengths.old from).lengths }
{
    let mut w = from;
    let mut i: usize = 0;
    let word = word_of(from.format);
    while i < places.len() {
        if lengths.len() <= i {
            return row_to(i, w);
        }
        let v = at_block(image, w);
        let k = whole_at(image, v.format, v.record_length, v.at, v.left);
        if k != 0 {
            places[i] = (v.at + word) as u64;
            lengths[i] = (k - word) as u64;
            i += 1;
            w = moved(v, v.at + k, v.left - k);
        } else {
            // A copy of the walk goes to the call, so that the loop's own stays in registers.
            let here = w;
            match whole_from(image, here) {
                None => return row_to(i, w),
                Some(whole) => {
                    places[i] = whole.start as u64;
                    lengths[i] = whole.len as u64;
                    i += 1;
                    w = whole.behind;
                }
            }
        }
    }
    row_to(i, w)
}
