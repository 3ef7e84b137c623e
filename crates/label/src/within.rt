// The fields of a label by their places: in which of them a byte stands. It judges no field.
ghost use Rattle.std.specs.Prelude.{◌≡◌};
ghost use Rattle.label.specs.Judged.{field_with};

use super::rows::{Ask, first_bad_of};
use order::Kind;

// The first BP of the field in which BP b of a label of this kind stands, or 0 where b is no BP or the label has no fields.
pub fn field_with(k: Kind, b: u32) -> u32
    ensures { result ≡ field_with k b }
{
    if b == 0 {
        return 0;
    }
    let none = [0; 1];
    first_bad_of(k, Ask::Ends(b), &none, &none)
}
