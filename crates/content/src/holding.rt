// What a file holds, block by block: records, and bytes by their kind. It takes no step for a record.
ghost use Rattle.std.specs.Prelude.{◌≡◌};
ghost use Rattle.content.specs.Held.{plus, InRegister, file_held};

use crate::Walk;
use crate::section::next_data;
use block::{Held, block_held, empty};

// What the data blocks of a file hold together, and the place behind the last of them.
#[derive(Clone, Copy)]
pub struct FileHeld {
    pub held: Held,
    pub end: usize,
}

// Two parts of a file together.
fn plus(a: Held, b: Held) -> Held
    requires { InRegister (plus a b) }
    ensures { result ≡ plus a b }
{
    Held {
        records: a.records + b.records,
        bytes: a.bytes + b.bytes,
        words: a.words + b.words,
        padding: a.padding + b.padding,
        offset: a.offset + b.offset,
    }
}

// What the file of a walk holds from the walk's place on, which is that of an item.
pub fn file_held(image: &[u8], w: Walk) -> FileHeld
    ensures { result ≡ file_held image.now w }
{
    let mut held = empty();
    let mut at = w.at;
    while let Some(block) = next_data(image, at) {
        let start = block.start;
        let end = start + block.len;
        let more = block_held(w.format, w.record_length, w.offset, &image[start..end]);
        held = plus(held, more);
        at = end;
    }
    FileHeld { held, end: at }
}
