// The segments of a record one by one, from any walk whatever: for whoever takes a record segment by segment instead of joining
// it.
ghost use Rattle.std.specs.Prelude.{◌≡◌};
ghost use Rattle.content.specs.Walk.{first_segment, next_segment};

use crate::Walk;
use crate::unit::{Taken, is_inside, unit_from, unit_next};

// The first unit of the record at a walk's place.
pub fn first_segment(image: &[u8], w: Walk) -> Option<Taken>
    ensures { result ≡ first_segment image.now w }
{
    if is_inside(image, w) {
        return unit_from(image, w);
    }
    None
}

// The first unit of the next block, where the record goes on.
pub fn next_segment(image: &[u8], w: Walk) -> Option<Taken>
    ensures { result ≡ next_segment image.now w }
{
    if is_inside(image, w) {
        return unit_next(image, w);
    }
    None
}
