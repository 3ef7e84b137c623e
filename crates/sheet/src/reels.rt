// The reels that a sheet asks for: the quota of data blocks and the names. It knows nothing of files.
ghost use Rattle.std.specs.Prelude.{◌≡◌, [], ◌≤◌, length};
ghost use Rattle.reading.specs.Legal.{legal_name, legal_quota, fresh_names};
ghost use Rattle.sheet.specs.Flat.{in_parts};

use label::{label_fault, volume_label};
use order::{Kind, VOL};
use volume::{NAME, is_among};

// The most data blocks that a quota may allow a reel.
const MOST_BLOCKS: u64 = 999_999;

// Whether a quota is legal.
#[tactic(auto, unfolding(reading::specs::Legal::legal_quota, base::specs::If::if_b))]
pub(crate) fn is_legal_quota(quota: u64) -> bool
    ensures { result ≡ legal_quota quota }
{
    1 <= quota && quota <= MOST_BLOCKS
}

// Whether a name is legal: VOL1 made of it has no fault.
#[tactic(auto, unfolding(reading::specs::Legal::legal_name, reading::specs::Legal::is_sound, base::specs::If::if_b))]
fn is_legal_name(name: &[u8]) -> bool
    ensures { result ≡ legal_name name.now }
{
    if name.len() != NAME {
        return false;
    }
    let l = volume_label(name);
    let f = label_fault(
        Kind {
            family: VOL,
            number: 1,
        },
        &l,
    );
    f.number == 0
}

// Whether each of the names is legal, and none is among those before it. There are few: each is compared with all before it.
// Fewer bytes than a name's behind the last are no name.
#[tactic(auto, using(crate::proofs::Names::freshes))]
pub(crate) fn are_fresh(names: &[u8]) -> bool
    requires { length names.now ≤ 96 }
    ensures { result ≡ fresh_names [] (in_parts 6 names.now) }
{
    let mut places = [0usize; 16];
    for i in 0..names.len() / NAME {
        let at = i * NAME;
        let name = &names[at..at + NAME];
        if !is_legal_name(name) || is_among(names, &places[..i], name) {
            return false;
        }
        places[i] = at;
    }
    names.len() % NAME == 0
}
