// The labels that the writer makes: 80 SPACEs, over which the named fields are set. It knows no rule of a field: what is given is
// written.
ghost use Rattle.std.specs.Prelude.{◌≡◌, ◌+◌, ◌≤◌, get_or};
ghost use Rattle.base.specs.Digits.{digits};
ghost use Rattle.base.specs.Part.{part, put_at};
ghost use Rattle.label.specs.Made.{fitted, made_volume, made_first, made_second};

use super::field::byte_or;
use super::table;
use base::part_of;

// A label with f as its field of w bytes at a place, cut or filled with SPACEs.
fn with_field(l: [u8; 80], at: usize, w: usize, f: &[u8]) -> [u8; 80]
    requires { at + w ≤ 80 }
    ensures { result ≡ put_at l at (fitted w f.now) }
{
    let mut made = l;
    for i in 0..w {
        made[at + i] = byte_or(f, i, b' ');
    }
    made
}

// A label with the last w digits of n at a place.
fn with_number(l: [u8; 80], at: usize, w: usize, n: u32) -> [u8; 80]
    requires { at + w ≤ 80 }
    ensures { result ≡ put_at l at (fitted w (digits w n)) }
{
    let mut made = l;
    let mut left = n;
    let mut i = w;
    while 0 < i {
        i -= 1;
        made[at + i] = b'0' + (left % 10) as u8;
        left /= 10;
    }
    made
}

// A label with the field of w bytes at place `from` of a file's entry.
fn with_part(l: [u8; 80], at: usize, w: usize, file: &[u8], from: usize) -> [u8; 80]
    requires { at + w ≤ 80 }
    ensures { result ≡ put_at l at (fitted w (part from w file.now)) }
{
    with_field(l, at, w, part_of(file, from, w))
}

// VOL1 with a volume identifier.
pub fn volume_label(id: &[u8]) -> [u8; 80]
    ensures { result ≡ made_volume id.now }
{
    let named = with_field([b' '; 80], table::NAME, table::NAME_WIDTH, b"VOL1");
    let identified = with_field(named, table::VOLUME, table::VOLUME_WIDTH, id);
    with_field(
        identified,
        table::STANDARD_VERSION,
        table::STANDARD_VERSION_WIDTH,
        b"4",
    )
}

// HDR1, EOV1 or EOF1, as the name says, of a file's entry: its section and sequence in the set and its block count.
pub fn first_label(
    name: &[u8],
    set: &[u8],
    file: &[u8],
    section: u32,
    sequence: u32,
    count: u32,
) -> [u8; 80]
    ensures { result ≡ made_first name.now set.now file.now section sequence count }
{
    let named = with_field([b' '; 80], table::NAME, table::NAME_WIDTH, name);
    let identified = with_part(
        named,
        table::IDENTIFIER,
        table::IDENTIFIER_WIDTH,
        file,
        table::IDENTIFIER_IN,
    );
    let in_set = with_field(identified, table::SET, table::SET_WIDTH, set);
    let in_section = with_number(in_set, table::SECTION, table::SECTION_WIDTH, section);
    let in_sequence = with_number(in_section, table::SEQUENCE, table::SEQUENCE_WIDTH, sequence);
    let generation = with_part(
        in_sequence,
        table::GENERATION,
        table::GENERATION_WIDTH,
        file,
        table::GENERATION_IN,
    );
    let version = with_part(
        generation,
        table::VERSION,
        table::VERSION_WIDTH,
        file,
        table::VERSION_IN,
    );
    let created = with_part(
        version,
        table::CREATED,
        table::CREATED_WIDTH,
        file,
        table::CREATED_IN,
    );
    let expires = with_part(
        created,
        table::EXPIRES,
        table::EXPIRES_WIDTH,
        file,
        table::EXPIRES_IN,
    );
    with_number(expires, table::COUNT, table::COUNT_WIDTH, count)
}

// HDR2, EOV2 or EOF2, as the name says, of a file's entry: offset length 00.
pub fn second_label(name: &[u8], file: &[u8]) -> [u8; 80]
    ensures { result ≡ made_second name.now file.now }
{
    let named = with_field([b' '; 80], table::NAME, table::NAME_WIDTH, name);
    let format = with_part(
        named,
        table::RECORD_FORMAT,
        table::RECORD_FORMAT_WIDTH,
        file,
        table::FORMAT_IN,
    );
    let block = with_part(
        format,
        table::BLOCK_LENGTH,
        table::BLOCK_LENGTH_WIDTH,
        file,
        table::BLOCK_LENGTH_IN,
    );
    let record = with_part(block, table::SIZE, table::SIZE_WIDTH, file, table::SIZE_IN);
    with_number(record, table::OFFSET, table::OFFSET_WIDTH, 0)
}
