// Joining: the segments of one record, end to end, in the front of a lent buffer. It knows no refusal: whoever calls it knows
// that all of it fits.
ghost use Rattle.std.specs.Prelude.{◌≡◌, ◌++◌, ◌+◌, ◌≤◌, length};
ghost use Rattle.base.specs.Part.{part, put_at};
ghost use Rattle.content.specs.Walk.{record_at};
ghost use Rattle.content.specs.Code.Joining.{RestFits, bytes_behind, SplitAt, record_bytes};

use crate::Walk;
use crate::unit::{unit_from, unit_next};
use base::{part_of, put_in};

// The segments behind the first, copied from a place on.
fn copy_rest(image: &[u8], from: Walk, join: &mut [u8], place: usize)
    requires { RestFits image.now from place (length join.old) }
    ensures { join.new ≡ put_at join.old place (bytes_behind image.now from) }
{
    let mut w = from;
    let mut at = place;
    while let Some(unit) = unit_next(image, w) {
        put_in(join, at, part_of(image, unit.start, unit.len));
        if unit.indicator == 3 {
            return;
        }
        at += unit.len;
        w = unit.behind;
    }
}

// A record whose first segment, of n bytes, is known by its place, and the walk behind it.
pub(crate) fn join_from(image: &[u8], start: usize, n: usize, behind: Walk, join: &mut [u8])
    requires n_in_bounds { start + n ≤ length image.now }
    requires rest_fits { RestFits image.now behind n (length join.old) }
    ensures { join.new ≡ put_at join.old 0 (part start n image.now ++ bytes_behind image.now behind) }
{
    put_in(join, 0, part_of(image, start, n));
    copy_rest(image, behind, join, n);
}

// A record of two segments, each known by its place and length.
pub(crate) fn join_two(image: &[u8], start: usize, n: usize, next: usize, m: usize, join: &mut [u8])
    requires n_in_bounds { start + n ≤ length image.now }
    requires m_in_bounds { next + m ≤ length image.now }
    requires m_in_bounds_2 { n + m ≤ length join.old }
    ensures { join.new ≡ put_at join.old 0 (part start n image.now ++ part next m image.now) }
{
    put_in(join, 0, part_of(image, start, n));
    put_in(join, n, part_of(image, next, m));
}

// The record of several segments at a walk's place, joined.
pub(crate) fn join_record(image: &[u8], w: Walk, join: &mut [u8])
    requires { SplitAt image.now w (length join.old) }
    ensures { join.new ≡ put_at join.old 0 (record_bytes (record_at image.now w)) }
{
    if let Some(first) = unit_from(image, w) {
        join_from(image, first.start, first.len, first.behind, join);
    }
}
