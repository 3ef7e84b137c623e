// The fields of each label as tables, the same data as the definitions' lists: a row a field, its width, its rule, and the scope
// in which it is one.
// Byte positions stand here, once, and nowhere else in the code.
ghost use Rattle.std.specs.Prelude.{◌≡◌};
ghost use Rattle.label.specs.Table.{first};

// ---- the rules of a field

pub(crate) const FREE: u8 = 0;

pub(crate) const CHARACTERS: u8 = 1;

pub(crate) const SPACES: u8 = 2;

pub(crate) const DIGITS: u8 = 3;

pub(crate) const ZEROS: u8 = 4;

pub(crate) const POSITIVE: u8 = 5;

pub(crate) const DATE: u8 = 6;

pub(crate) const STANDARD: u8 = 7;

pub(crate) const FORMAT: u8 = 8;

pub(crate) const RECORD_LENGTH: u8 = 9;

// ---- the scopes: a label's own, as in the section's header, as in the section before

pub(crate) const PER_LABEL: u8 = 0;

pub(crate) const PER_SECTION: u8 = 1;

pub(crate) const PER_FILE: u8 = 2;

// ---- the labels

pub(crate) const VOL1: [u8; 24] = [
    4, FREE, PER_LABEL, // 1-4 VOL1, the kind
    6, CHARACTERS, PER_LABEL, // 5-10 volume identifier
    1, CHARACTERS, PER_LABEL, // 11 accessibility
    13, SPACES, PER_LABEL, // 12-24
    13, CHARACTERS, PER_LABEL, // 25-37 implementation
    14, CHARACTERS, PER_LABEL, // 38-51 owner
    28, SPACES, PER_LABEL, // 52-79
    1, STANDARD, PER_LABEL, // 80 `4`
];

// HDR1; EOV1 and EOF1 but for the rule of the block count.
const HDR1: [u8; 39] = [
    4,
    FREE,
    PER_LABEL, // 1-4 the kind
    17,
    CHARACTERS,
    PER_FILE, // 5-21 file identifier
    6,
    CHARACTERS,
    PER_FILE, // 22-27 set identifier
    4,
    DIGITS,
    PER_SECTION, // 28-31 section
    4,
    DIGITS,
    PER_FILE, // 32-35 sequence
    4,
    POSITIVE,
    PER_FILE, // 36-39 generation
    2,
    DIGITS,
    PER_FILE, // 40-41 version
    6,
    DATE,
    PER_SECTION, // 42-47 creation date
    6,
    DATE,
    PER_SECTION, // 48-53 expiration date
    1,
    CHARACTERS,
    PER_FILE, // 54 accessibility
    6,
    ZEROS,
    PER_LABEL, // 55-60 block count
    13,
    CHARACTERS,
    PER_LABEL, // 61-73 implementation
    7,
    SPACES,
    PER_SECTION, // 74-80
];

const COUNT_RULE: usize = 31;

// HDR1, EOV1 and EOF1, with the rule of the block count.
pub(crate) fn first(count: u8) -> [u8; 39]
    ensures { result ≡ first count }
{
    let mut rows = HDR1;
    rows[COUNT_RULE] = count;
    rows
}

// HDR2, EOV2 and EOF2.
pub(crate) const HDR2: [u8; 21] = [
    4,
    FREE,
    PER_LABEL, // 1-4 the kind
    1,
    FORMAT,
    PER_FILE, // 5
    5,
    POSITIVE,
    PER_FILE, // 6-10 block length
    5,
    RECORD_LENGTH,
    PER_FILE, // 11-15
    35,
    FREE,
    PER_LABEL, // 16-50
    2,
    DIGITS,
    PER_FILE, // 51-52 offset length
    28,
    SPACES,
    PER_SECTION, // 53-80
];

// UHL and UTL.
pub(crate) const USER: [u8; 9] = [
    3, FREE, PER_LABEL, // 1-3 the kind
    1, CHARACTERS, PER_LABEL, // 4
    76, FREE, PER_LABEL, // 5-80
];

// ---- the places and widths of the fields that are read or written by name: of any label

pub(crate) const NAME: usize = 0;

pub(crate) const NAME_WIDTH: usize = 4;

// ---- of VOL1

pub const VOLUME: usize = 4;

pub(crate) const VOLUME_WIDTH: usize = 6;

pub(crate) const VOLUME_ACCESS: usize = 10;

pub(crate) const STANDARD_VERSION: usize = 79;

pub(crate) const STANDARD_VERSION_WIDTH: usize = 1;

// ---- of HDR1, EOV1 and EOF1

pub const IDENTIFIER: usize = 4;

pub const IDENTIFIER_WIDTH: usize = 17;

pub(crate) const SET: usize = 21;

pub(crate) const SET_WIDTH: usize = 6;

pub(crate) const SECTION: usize = 27;

pub(crate) const SECTION_WIDTH: usize = 4;

pub(crate) const SEQUENCE: usize = 31;

pub(crate) const SEQUENCE_WIDTH: usize = 4;

pub const GENERATION: usize = 35;

pub(crate) const GENERATION_WIDTH: usize = 4;

pub(crate) const VERSION: usize = 39;

pub(crate) const VERSION_WIDTH: usize = 2;

pub(crate) const CREATED: usize = 41;

pub(crate) const CREATED_WIDTH: usize = 6;

pub(crate) const EXPIRES: usize = 47;

pub(crate) const EXPIRES_WIDTH: usize = 6;

pub(crate) const FILE_ACCESS: usize = 53;

pub(crate) const COUNT: usize = 54;

pub(crate) const COUNT_WIDTH: usize = 6;

// ---- of HDR2, EOV2 and EOF2

pub const RECORD_FORMAT: usize = 4;

pub const RECORD_FORMAT_WIDTH: usize = 1;

pub(crate) const BLOCK_LENGTH: usize = 5;

pub const BLOCK_LENGTH_WIDTH: usize = 5;

pub(crate) const SIZE: usize = 10;

pub const SIZE_WIDTH: usize = 5;

pub(crate) const OFFSET: usize = 50;

pub(crate) const OFFSET_WIDTH: usize = 2;

// ---- the places of these in the entry of a file on an order sheet

pub const IDENTIFIER_IN: usize = 0;

pub const GENERATION_IN: usize = 17;

pub(crate) const VERSION_IN: usize = 21;

pub(crate) const CREATED_IN: usize = 23;

pub(crate) const EXPIRES_IN: usize = 29;

pub const FORMAT_IN: usize = 35;

pub const BLOCK_LENGTH_IN: usize = 36;

pub const SIZE_IN: usize = 41;

// The bytes of an entry; of its fields from the generation to the expiration date, which stand in HDR1 as they do here; and of
// those from the format on, which stand so in HDR2.
pub const ENTRY: usize = SIZE_IN + SIZE_WIDTH;

pub const DATED_WIDTH: usize = EXPIRES + EXPIRES_WIDTH - GENERATION;

pub const FORMATTED_WIDTH: usize = ENTRY - FORMAT_IN;

// ---- the BPs that a refusal names: of the accessibility of a volume and of a file, and of what is checked against other labels

pub(crate) const VOLUME_ACCESS_BP: u32 = VOLUME_ACCESS as u32 + 1;

pub(crate) const FILE_ACCESS_BP: u32 = FILE_ACCESS as u32 + 1;

pub const VOLUME_BP: u32 = VOLUME as u32 + 1;

pub const SET_BP: u32 = SET as u32 + 1;

pub const SECTION_BP: u32 = SECTION as u32 + 1;

pub const SEQUENCE_BP: u32 = SEQUENCE as u32 + 1;

pub const COUNT_BP: u32 = COUNT as u32 + 1;
