// Two labels compared field by field. It knows which fields are compared by a table, and no field by name.
ghost use Rattle.std.specs.Prelude.{◌≡◌};
ghost use Rattle.label.specs.Judged.{unequal_in};
ghost use Rattle.label.specs.Table.{hdr1, hdr2, per_section, per_file};

use super::rows::{Ask, first_bad};
use super::table::{HDR2, PER_FILE, PER_SECTION, ZEROS, first};

// EOV1 or EOF1 against the HDR1 of its section: the first BP of the first field that is to be equal and is not, or 0.
pub fn unequal_trailer_first(a: &[u8], b: &[u8]) -> u32
    ensures { result ≡ unequal_in per_section a.now b.now hdr1 }
{
    first_bad(&first(ZEROS), Ask::Agrees(PER_SECTION), a, b)
}

// EOV2 or EOF2 against the HDR2 of its section.
pub fn unequal_trailer_second(a: &[u8], b: &[u8]) -> u32
    ensures { result ≡ unequal_in per_section a.now b.now hdr2 }
{
    first_bad(&HDR2, Ask::Agrees(PER_SECTION), a, b)
}

// HDR1 of two sections of a file.
pub fn unequal_section_first(a: &[u8], b: &[u8]) -> u32
    ensures { result ≡ unequal_in per_file a.now b.now hdr1 }
{
    first_bad(&first(ZEROS), Ask::Agrees(PER_FILE), a, b)
}

// HDR2 of two sections of a file.
pub fn unequal_section_second(a: &[u8], b: &[u8]) -> u32
    ensures { result ≡ unequal_in per_file a.now b.now hdr2 }
{
    first_bad(&HDR2, Ask::Agrees(PER_FILE), a, b)
}
