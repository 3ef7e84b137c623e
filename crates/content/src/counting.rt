// What a walk over a file's records comes to: how many records and how many record bytes there are. It joins no record.
ghost use Rattle.std.specs.Prelude.{◌≡◌};
ghost use Rattle.content.specs.Records.{records_at, facts_of};

use crate::Walk;
use crate::measuring::{Measured, at_block, measure_far, whole_at};
use crate::unit::moved;
use block::word_of;

// The number of records, and of their bytes.
#[repr(C)]
#[derive(Clone, Copy)]
pub struct Facts {
    pub records: u64,
    pub bytes: u64,
}

// The facts of the records from a walk on, be its state right or forged.
pub fn file_facts(image: &[u8], from: Walk) -> Facts
    ensures { result ≡ facts_of (records_at image.now from) }
{
    let mut records: u64 = 0;
    let mut bytes: u64 = 0;
    let mut w = from;
    loop {
        // Most records stand whole in a block. They are told here, by one number: what `measure` says of each goes through memory.
        let v = at_block(image, w);
        let k = whole_at(image, v.format, v.record_length, v.at, v.left);
        if k != 0 {
            let word = word_of(v.format);
            records += 1;
            bytes += (k - word) as u64;
            w = moved(v, v.at + k, v.left - k);
        } else {
            let Some(measured) = measure_far(image, w) else {
                return Facts { records, bytes };
            };
            match measured {
                Measured::Whole(_, n, u) => {
                    records += 1;
                    bytes += n as u64;
                    w = u;
                }
                Measured::Split(n, u) => {
                    records += 1;
                    bytes += n as u64;
                    w = u;
                }
            }
        }
    }
}
