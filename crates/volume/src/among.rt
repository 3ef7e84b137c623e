// Labels and names of volumes by their places. It knows no rule of a label.
ghost use Rattle.std.specs.Prelude.{◌≡◌};
ghost use Rattle.base.specs.Part.{part, same};
ghost use Rattle.volume.specs.Fault.{is_among, names_at};
ghost use Rattle.volume.specs.Code.Place.{label_at};

use base::{equal, part_of};

// The bytes of a volume's name.
pub const NAME: usize = 6;

// The label at a place of the image.
pub(crate) fn label_at(image: &[u8], at: usize) -> &[u8]
    ensures { result.now ≡ label_at image.now at }
{
    part_of(image, at, 80)
}

// Whether v is the name at a place.
fn is_name_at(bytes: &[u8], at: usize, v: &[u8]) -> bool
    ensures { result ≡ same v.now (part at 6 bytes.now) }
{
    equal(v, part_of(bytes, at, NAME))
}

// Whether v is the name at one of the places.
pub fn is_among(bytes: &[u8], places: &[usize], v: &[u8]) -> bool
    ensures { result ≡ is_among v.now (names_at bytes.now places.now) }
{
    for i in 0..places.len() {
        if is_name_at(bytes, places[i], v) {
            return true;
        }
    }
    false
}
