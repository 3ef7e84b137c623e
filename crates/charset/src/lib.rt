// Characters, numbers and dates: what a label's field may hold. It knows no label.

#![tactic(auto)]

ghost use Rattle.std.specs.Prelude.{◌≡◌};
ghost use Rattle.base.specs.Digits.{is_digit, all_digits};
ghost use Rattle.charset.specs.Class.{between, is_a, class_of, all_a};
ghost use Rattle.charset.specs.Code.Table.{Right, in_ranges, RightElsewhere};
ghost use Rattle.charset.specs.Number.{number_in};
ghost use Rattle.charset.specs.Date.{is_century, is_year_day, is_date};

mod classes;

pub use classes::CLASSES;

// Whether a byte lies in the range from a to z.
fn is_between(a: u8, z: u8, b: u8) -> bool
    ensures { result ≡ between a z b }
{
    a <= b && b <= z
}

// Whether a byte is a digit.
pub fn is_digit(b: u8) -> bool
    ensures { result ≡ is_digit b }
{
    is_between(b'0', b'9', b)
}

// Whether a byte lies in the ranges of most bytes: digits, capitals, SPACE.
fn in_ranges(b: u8) -> bool
    ensures { result ≡ in_ranges b }
{
    if is_digit(b) {
        return true;
    }
    if is_between(b'A', b'Z', b) {
        return true;
    }
    b == b' '
}

// The class number of a byte. What the ranges tell is not looked up: the answer is the same whatever a table has for it.
fn class_by(table: &[u8; 256], b: u8) -> u8
    requires { RightElsewhere table.now }
    ensures { result ≡ class_of b }
{
    if is_digit(b) {
        return 2;
    }
    if in_ranges(b) {
        return 1;
    }
    table[b as usize]
}

// The table of this crate, which is right for every byte.
fn class_table() -> [u8; 256]
    ensures { Right result }
{
    CLASSES
}

// The class number of a byte.
pub fn class_of(b: u8) -> u8
    ensures { result ≡ class_of b }
{
    let table = class_table();
    class_by(&table, b)
}

// Whether a byte is an a-character, by such a table.
fn is_character_by(table: &[u8; 256], b: u8) -> bool
    requires { RightElsewhere table.now }
    ensures { result ≡ is_a b }
{
    class_by(table, b) != 0
}

// Whether a byte is an a-character.
pub fn is_character(b: u8) -> bool
    ensures { result ≡ is_a b }
{
    let table = class_table();
    is_character_by(&table, b)
}

// Whether every byte is an a-character, by such a table.
fn all_characters_by(table: &[u8; 256], s: &[u8]) -> bool
    requires { RightElsewhere table.now }
    ensures { result ≡ all_a s.now }
{
    for b in s {
        if !is_character_by(table, *b) {
            return false;
        }
    }
    true
}

// The same by the table of this crate, which is laid out once for all of them: a constant is copied wherever it is read.
fn all_by_table(s: &[u8]) -> bool
    ensures { result ≡ all_a s.now }
{
    let table = class_table();
    all_characters_by(&table, s)
}

// Whether every byte is an a-character. Most fields lie in the ranges whole, and want no table.
pub fn all_characters(s: &[u8]) -> bool
    ensures { result ≡ all_a s.now }
{
    for i in 0..s.len() {
        if !in_ranges(s[i]) {
            return all_by_table(&s[i..]);
        }
    }
    true
}

// Whether every byte is a digit.
pub fn all_digits(s: &[u8]) -> bool
    ensures { result ≡ all_digits s.now }
{
    for b in s {
        if !is_digit(*b) {
            return false;
        }
    }
    true
}

// The number that at most nine digits mean, if a field has nothing else. A digit is told by its code, since its value is wanted.
pub fn number_in(s: &[u8]) -> Option<u32>
    ensures { result ≡ number_in s.now }
{
    if 9 < s.len() {
        return None;
    }
    let mut n: u32 = 0;
    for b in s {
        if *b < b'0' {
            return None;
        }
        if b'9' < *b {
            return None;
        }
        n = n * 10 + (*b - b'0') as u32;
    }
    Some(n)
}

// Whether a byte stands before the year of a date: SPACE or ZERO.
fn is_century(b: u8) -> bool
    ensures { result ≡ is_century b }
{
    if b == b' ' {
        return true;
    }
    b == b'0'
}

// Whether the number of the five digits and that of the last three are a year with a day of it, or ZEROs.
fn is_year_day(all: Option<u32>, day: Option<u32>) -> bool
    ensures { result ≡ is_year_day all day }
{
    let Some(n) = all else {
        return false;
    };
    let Some(d) = day else {
        return false;
    };
    if n == 0 {
        return true;
    }
    if d < 1 {
        return false;
    }
    d <= 366
}

// Whether a field is a date: SPACE or ZERO, and a year with a day of it or five ZEROs.
pub fn date(s: &[u8]) -> bool
    ensures { result ≡ is_date s.now }
{
    if s.len() != 6 {
        return false;
    }
    if !is_century(s[0]) {
        return false;
    }
    is_year_day(
        number_in(base::part_of(s, 1, 5)),
        number_in(base::part_of(s, 3, 3)),
    )
}
