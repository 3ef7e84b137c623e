// The control word of a unit, into a lent buffer.
ghost use Rattle.std.specs.Prelude.{◌≡◌, ◌+◌, ◌≤◌, length};
ghost use Rattle.base.specs.Part.{put_at, put_in};
ghost use Rattle.block.specs.Room.{word_with};

use base::{FIXED, VARIABLE, has_room};

// Writes four digits, as single bytes: the compiler takes a loop over so few for a long one.
fn put_four(out: &mut [u8], at: usize, d: [u8; 4])
    requires { at + 4 ≤ length out.old }
    ensures { out.new ≡ put_at out.old at d }
{
    out[at] = d[0];
    out[at + 1] = d[1];
    out[at + 2] = d[2];
    out[at + 3] = d[3];
}

// Writes a control word with an indicator and four digits, if all of it has room at its place. A unit of an F file has none.
pub fn put_word(out: &mut [u8], at: usize, f: u8, indicator: u8, d: [u8; 4])
    ensures { out.new ≡ put_in out.old at (word_with f indicator d) }
{
    if f == FIXED {
        return;
    }
    if f == VARIABLE {
        if has_room(out.len(), at, 4) {
            put_four(out, at, d);
        }
        return;
    }
    if has_room(out.len(), at, 5) {
        out[at] = indicator;
        put_four(out, at + 1, d);
    }
}
