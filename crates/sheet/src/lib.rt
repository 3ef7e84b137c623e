// The order sheet, as slices that a caller fills: whether it is legal, and the number given back where it is not.
// It knows what may stand on a sheet, and nothing of the blocks and reels that are made of it.

#![tactic(auto)]

mod file; // file.rt: the files, their entries and records
mod reels; // reels.rt: the quota and the names

ghost use Rattle.std.specs.Prelude.{◌≡◌};
ghost use Rattle.sheet.specs.Flat.{reels_number, sheet_number};
ghost use Rattle.sheet.specs.Code.Passing.{fill_bytes, says_files};

use base::add_up_to;
use file::are_legal;
pub use file::format_in;
use label::ENTRY;
use reels::{are_fresh, is_legal_quota};
use volume::NAME;

// The most files and reels of a set.
const FILES: usize = 64;

const REELS: usize = 16;

// The number for the quota and the names alone: 9 for a 17th name, 11 where they are not legal, else 0.
#[tactic(auto, using(crate::proofs::Numbers::reels))]
pub fn reels_number(quota: u64, names: &[u8]) -> u32
    ensures { result ≡ reels_number quota names.now }
{
    if REELS < names.len() / NAME {
        return 9;
    }
    if names.len() % NAME == 0 && names.len() != 0 && is_legal_quota(quota) && are_fresh(names) {
        return 0;
    }
    11
}

// Whether the lengths add up to the bytes, and all files are legal.
#[tactic(auto, unfolding(crate::specs::Code::Passing::fill_bytes, base::specs::If::if_b))]
fn fill_bytes(set: &[u8], files: &[u8], counts: &[u64], lengths: &[u64], bytes: &[u8]) -> bool
    ensures { result ≡ fill_bytes set.now files.now counts.now lengths.now bytes.now }
{
    add_up_to(lengths, bytes.len()) && are_legal(set, files, counts, lengths, bytes)
}

// Whether counts and lengths add up, and there are files, all of them legal.
#[tactic(auto, unfolding(crate::specs::Code::Passing::says_files, base::specs::If::if_b))]
fn says_files(set: &[u8], files: &[u8], counts: &[u64], lengths: &[u64], bytes: &[u8]) -> bool
    ensures { result ≡ says_files set.now files.now counts.now lengths.now bytes.now }
{
    files.len() % ENTRY == 0
        && files.len() / ENTRY == counts.len()
        && counts.len() != 0
        && add_up_to(counts, lengths.len())
        && fill_bytes(set, files, counts, lengths, bytes)
}

// The number for a whole sheet: 9 for a 65th file or a 17th name, 11 where it is not legal, else 0.
#[tactic(auto, using(crate::proofs::Numbers::sheets))]
pub fn sheet_number(
    set: &[u8],
    files: &[u8],
    counts: &[u64],
    lengths: &[u64],
    bytes: &[u8],
    quota: u64,
    names: &[u8],
) -> u32
    ensures { result ≡ sheet_number
        (record {
          set = set.entry.now;
          files = files.now;
          counts = counts.now;
          lengths = lengths.now;
          bytes = bytes.now;
          quota = quota;
          names = names.now;
        }) }
{
    if FILES < files.len() / ENTRY {
        return 9;
    }
    let n = reels_number(quota, names);
    if n != 0 {
        return n;
    }
    if says_files(set, files, counts, lengths, bytes) {
        return 0;
    }
    11
}
