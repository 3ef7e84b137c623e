// One data block: its units for the formats F, D and S, and the turns of segments. It knows no label.
// `record_length` is the record length R. It has 32 bits, so that what is pending, which goes by R, fits a usize whatever is handed in.

#![tactic(auto)]

mod room; // room.rt: the room in a block that is being filled
mod word; // word.rt: the control word of a unit

ghost use Rattle.std.specs.Prelude.{◌≡◌, true, [], ◌∷◌, ◌+◌, ◌-◌, ◌≤◌, eqb, length, drop};
ghost use Rattle.base.specs.If.{if_b};
ghost use Rattle.base.specs.Part.{all_are};
ghost use Rattle.base.specs.Digits.{is_digit};
ghost use Rattle.charset.specs.Number.{number_in};
ghost use Rattle.base.specs.Format.{format_f, format_d, format_s};
ghost use Rattle.block.specs.Unit.{pad, fixed, measured, variable, segment, unit_of, length_of, word_of, whole_of};
ghost use Rattle.block.specs.Cut.{cut, some_units, is_cut, units};
ghost use Rattle.block.specs.Turn.{outcome, is_turn, open_after, turned, block_outcome};
ghost use Rattle.block.specs.Code.Loops.{Turning, held_up_to};
ghost use Rattle.block.specs.Held.{empty, ends_with, Reached, held_in};

use base::{FIXED, SEGMENTED, VARIABLE};
pub use room::{enters, indicator, smaller, taken};
pub use word::put_word;

// The padding byte, a circumflex.
pub const PAD: u8 = b'^';

// The bytes that the padding test compares before it looks whether to go on.
const CHUNK: usize = 128;

// A unit: its indicator, the bytes of its control word, and the bytes of its record or segment.
#[derive(Clone, Copy)]
pub struct Unit {
    pub indicator: u32,
    pub word: usize,
    pub len: usize,
}

// The answer on a block: 0, 7 or 8, and what is pending behind it: 0, or one more than the bytes of the open record.
#[derive(Clone, Copy)]
pub struct Outcome {
    pub number: u32,
    pub pending: usize,
}

// What a block holds: the records that end in it, and its bytes: of records, of control words, of padding and of the offset.
#[derive(Clone, Copy)]
pub struct Held {
    pub records: usize,
    pub bytes: usize,
    pub words: usize,
    pub padding: usize,
    pub offset: usize,
}

// ---- padding

// Whether every byte is padding, without a way out of the loop, so that many bytes are compared at a time.
fn chunk_is_padding(s: &[u8]) -> bool
    ensures { result ≡ all_are pad s.now }
{
    let mut all = true;
    for b in s {
        all = all & (*b == PAD);
    }
    all
}

// The same, left behind the first chunk that has another byte.
fn chunks_are_padding(s: &[u8]) -> bool
    ensures { result ≡ all_are pad s.now }
{
    let mut at = 0;
    while CHUNK <= s.len() - at {
        let end = at + CHUNK;
        if !chunk_is_padding(&s[at..end]) {
            return false;
        }
        at = end;
    }
    chunk_is_padding(&s[at..])
}

// Whether every byte is padding. Most records say so by their first byte.
pub fn all_padding(s: &[u8]) -> bool
    ensures { result ≡ all_are pad s.now }
{
    if s.len() == 0 {
        return true;
    }
    if s[0] != PAD {
        return false;
    }
    chunks_are_padding(s)
}

// Whether all that is left from a place on is padding.
fn padding_from(s: &[u8], at: usize) -> bool
    ensures { result ≡ all_are pad (drop at s.now) }
{
    if s.len() <= at {
        return true;
    }
    all_padding(&s[at..])
}

// ---- control words

// Whether a byte is a digit: by two comparisons, since a walk waits for each control word.
fn is_digit(b: u8) -> bool
    ensures { result ≡ is_digit b }
{
    if b < b'0' {
        return false;
    }
    b <= b'9'
}

// The value of a digit.
fn value_of(b: u8) -> u32
    requires { is_digit b ≡ true }
    ensures { (result ≡ b - 48) × (result ≤ 9) }
{
    (b - b'0') as u32
}

// The code of a digit.
fn code_of(b: u8) -> u32
    requires { is_digit b ≡ true }
    ensures { (result ≡ b) × (result - 48 ≤ 9) }
{
    b as u32
}

// The number that four digits mean: of products side by side, since a walk waits for it before the next record is found. What the
// codes of the first three are too high, 48 each, is taken off the sum; the last is a value, or the compiler reads all four into
// one wide register, for which the walk waits longer.
fn four_digits(a: u8, b: u8, c: u8, d: u8) -> Option<u32>
    ensures { result ≡ number_in (a ∷ b ∷ c ∷ d ∷ []) }
{
    if is_digit(a) {
        if is_digit(b) {
            if is_digit(c) {
                if is_digit(d) {
                    let high = code_of(a) * 1000 + code_of(b) * 100;
                    let sum = high + (code_of(c) * 10 + value_of(d));
                    return Some(sum - 53280);
                }
            }
        }
    }
    None
}

// The bytes of a control word in a file of that format.
pub fn word_of(format: u32) -> usize
    ensures { result ≡ word_of format }
{
    if format == FIXED as u32 {
        return 0;
    }
    if format == VARIABLE as u32 {
        return 4;
    }
    5
}

// ---- the unit at a place

// How many bytes are left from a place on.
fn left_of(s: &[u8], at: usize) -> usize
    ensures { result ≡ length s.now - at }
{
    if s.len() <= at {
        return 0;
    }
    s.len() - at
}

// The bytes of the fixed-length record at a place, or 0 where there is none. Most records differ from padding in their first
// byte.
fn fixed_length(record_length: u32, s: &[u8], at: usize) -> usize
    ensures { result ≡ length_of (fixed record_length (drop at s.now)) }
{
    if record_length == 0 {
        return 0;
    }
    let n = record_length as usize;
    if left_of(s, at) < n {
        return 0;
    }
    if s[at] != PAD {
        return n;
    }
    let end = at + n;
    if chunks_are_padding(&s[at..end]) {
        return 0;
    }
    n
}

// The bytes of a unit led by a control word of `word` bytes whose length field says `n`, at most `longest`, with `left` bytes
// there; or 0.
fn measured_length(word: u32, longest: u32, left: usize, n: u32) -> usize
    ensures { result ≡ length_of (measured 0 word longest left (Some n)) }
{
    if n < word {
        return 0;
    }
    if longest < n {
        return 0;
    }
    let k = n as usize;
    if left < k {
        return 0;
    }
    k
}

// The bytes of the variable-length record at a place, with its control word, or 0 where there is none.
fn variable_length(record_length: u32, s: &[u8], at: usize) -> usize
    ensures { result ≡ length_of (variable record_length (drop at s.now)) }
{
    let left = left_of(s, at);
    if left < 4 {
        return 0;
    }
    match four_digits(s[at], s[at + 1], s[at + 2], s[at + 3]) {
        None => 0,
        Some(n) => measured_length(4, record_length, left, n),
    }
}

// The bytes of the segment at a place, with its control word, or 0 where there is none.
pub fn segment_length(s: &[u8], at: usize) -> usize
    ensures { result ≡ length_of (segment (drop at s.now)) }
{
    let left = left_of(s, at);
    if left < 5 {
        return 0;
    }
    let i = s[at];
    if i < b'0' {
        return 0;
    }
    if b'3' < i {
        return 0;
    }
    match four_digits(s[at + 1], s[at + 2], s[at + 3], s[at + 4]) {
        None => 0,
        Some(n) => measured_length(5, 9999, left, n),
    }
}

// The segment at a place, if one stands there.
fn segment_at(s: &[u8], at: usize) -> Option<Unit>
    ensures { result ≡ segment (drop at s.now) }
{
    let n = segment_length(s, at);
    if n == 0 {
        return None;
    }
    Some(Unit {
        indicator: (s[at] - b'0') as u32,
        word: 5,
        len: n - 5,
    })
}

// The unit at a place, if one stands there, in a file of that format and record length.
pub fn unit_at(format: u8, record_length: u32, s: &[u8], at: usize) -> Option<Unit>
    ensures { result ≡ unit_of format record_length (drop at s.now) }
{
    if format == FIXED {
        let n = fixed_length(record_length, s, at);
        if n == 0 {
            return None;
        }
        return Some(Unit {
            indicator: 0,
            word: 0,
            len: n,
        });
    }
    if format == VARIABLE {
        let n = variable_length(record_length, s, at);
        if n == 0 {
            return None;
        }
        return Some(Unit {
            indicator: 0,
            word: 4,
            len: n - 4,
        });
    }
    if format == SEGMENTED {
        return segment_at(s, at);
    }
    None
}

// The bytes of the segment at a place, with its control word, where it is a whole record of at most R bytes; or 0.
fn whole_segment(record_length: u32, s: &[u8], at: usize) -> usize
    ensures { result ≡ whole_of record_length (segment (drop at s.now)) }
{
    let n = segment_length(s, at);
    if n == 0 {
        return 0;
    }
    if s[at] != b'0' {
        return 0;
    }
    let most = record_length as usize;
    if most < n - 5 {
        return 0;
    }
    n
}

// The bytes of the unit at a place, with its control word, where it is a whole record of at most R bytes; or 0.
pub fn whole_length(format: u8, record_length: u32, s: &[u8], at: usize) -> usize
    ensures { result ≡ whole_of record_length (unit_of format record_length (drop at s.now)) }
{
    if format == FIXED {
        return fixed_length(record_length, s, at);
    }
    if format == VARIABLE {
        return variable_length(record_length, s, at);
    }
    if format == SEGMENTED {
        return whole_segment(record_length, s, at);
    }
    0
}

// ---- one or more units, then padding

// Whether there are one or more fixed-length records from a place on, then padding.
// Each format has a loop of its own: a block may hold very many units, and this is what an image's blocks are read by.
fn fixed_cuts(record_length: u32, s: &[u8], from: usize) -> bool
    ensures { result ≡ is_cut (some_units (cut format_f record_length (drop from s.now))) }
{
    let mut at = from;
    loop {
        let n = fixed_length(record_length, s, at);
        if n == 0 {
            if at == from {
                return false;
            }
            return padding_from(s, at);
        }
        at += n;
    }
}

// Whether there are variable-length records from a place on, none or more, then padding.
fn variable_rest(record_length: u32, s: &[u8], from: usize) -> bool
    ensures { result ≡ is_cut (cut format_d record_length (drop from s.now)) }
{
    let mut at = from;
    loop {
        let n = variable_length(record_length, s, at);
        if n == 0 {
            return padding_from(s, at);
        }
        at += n;
    }
}

// The same for one or more.
fn variable_cuts(record_length: u32, s: &[u8], from: usize) -> bool
    ensures { result ≡ is_cut (some_units (cut format_d record_length (drop from s.now))) }
{
    let n = variable_length(record_length, s, from);
    if n == 0 {
        return false;
    }
    variable_rest(record_length, s, from + n)
}

// Whether a block of a D file can be cut. A short block is most often one record, which needs no loop and so no call of one.
pub fn is_variable_block(block: usize, record_length: u32, offset: usize, s: &[u8]) -> bool
    ensures { result ≡ is_cut (units format_d block record_length offset s.now) }
{
    if block < s.len() {
        return false;
    }
    let n = variable_length(record_length, s, offset);
    if n == 0 {
        return false;
    }
    let at = offset + n;
    if s.len() <= at {
        return true;
    }
    variable_rest(record_length, s, at)
}

// Whether there are one or more segments from a place on, then padding, whatever their turns; `record_length` has no part in it.
fn segments_cut(record_length: u32, s: &[u8], from: usize) -> bool
    ensures { result ≡ is_cut (some_units (cut format_s record_length (drop from s.now))) }
{
    let mut at = from;
    loop {
        let n = segment_length(s, at);
        if n == 0 {
            if at == from {
                return false;
            }
            return padding_from(s, at);
        }
        at += n;
    }
}

// ---- turns

// Whether a segment of n bytes may stand here: at the head of its block or not, with that much pending.
fn in_turn(record_length: u32, pending: usize, head: bool, indicator: u32, n: usize) -> bool
    ensures { result ≡ is_turn record_length pending head indicator n }
{
    let most = record_length as usize;
    if indicator <= 1 {
        if pending != 0 {
            return false;
        }
        return n <= most;
    }
    if !head {
        return false;
    }
    if pending == 0 {
        return false;
    }
    if most < n {
        return false;
    }
    pending - 1 <= most - n
}

// What is pending behind a segment that stands in its turn.
fn open_after(pending: usize, indicator: u32, n: usize) -> usize
    requires { pending + n ≤ 4294967296 }
    ensures { result ≡ open_after pending indicator n }
{
    if indicator == 1 {
        return n + 1;
    }
    if indicator == 2 {
        return pending + n;
    }
    0
}

// ---- the answer on a block

// An answer by its two numbers.
fn answer(number: u32, pending: usize) -> Outcome
    ensures { result ≡ outcome number pending }
{
    Outcome { number, pending }
}

// The answer on a block of whole records, which could be cut or not: they are in turn where nothing is pending.
fn whole_outcome(cuts: bool, pending: usize) -> Outcome
    ensures { result ≡ if_b cuts (if_b (eqb pending 0) (outcome 0 0) (outcome 8 0)) (outcome 7 0) }
{
    if cuts {
        if pending == 0 {
            return answer(0, 0);
        }
        return answer(8, 0);
    }
    answer(7, 0)
}

// The answer on the segments from a place on, at which `pending` was open; those before `begin` are known to stand in their
// turns, with `carried` open there.
// Where one is out of turn, a unit that cannot be cut goes before it, wherever it stands.
fn segments_outcome(
    record_length: u32,
    pending: usize,
    s: &[u8],
    from: usize,
    carried: usize,
    begin: usize,
) -> Outcome
    requires { Turning record_length s.now pending from carried begin }
    ensures { result ≡ turned record_length pending true (some_units (cut format_s record_length (drop from s.now))) }
{
    let mut held = carried;
    let mut at = begin;
    loop {
        let unit = segment_at(s, at);
        match unit {
            Some(
                Unit {
                    indicator,
                    word,
                    len,
                },
            ) => {
                if !in_turn(record_length, held, at == from, indicator, len) {
                    if segments_cut(record_length, s, from) {
                        return answer(8, 0);
                    }
                    return answer(7, 0);
                }
                held = open_after(held, indicator, len);
                at = at + word + len;
            }
            None => {
                if at == from {
                    return answer(7, 0);
                }
                if padding_from(s, at) {
                    return answer(0, held);
                }
                return answer(7, 0);
            }
        }
    }
}

// The answer on a block of an S file. A short block is most often one segment, which needs no loop and so no call of one.
pub fn segmented_outcome(
    block: usize,
    record_length: u32,
    offset: usize,
    pending: usize,
    s: &[u8],
) -> Outcome
    ensures { result ≡ block_outcome format_s block record_length offset pending s.now }
{
    if block < s.len() {
        return answer(7, 0);
    }
    let unit = segment_at(s, offset);
    match unit {
        Some(
            Unit {
                indicator,
                word,
                len,
            },
        ) => {
            if in_turn(record_length, pending, true, indicator, len) {
                let held = open_after(pending, indicator, len);
                let at = offset + word + len;
                if s.len() <= at {
                    return answer(0, held);
                }
                return segments_outcome(record_length, pending, s, offset, held, at);
            }
            segments_outcome(record_length, pending, s, offset, pending, offset)
        }
        None => answer(7, 0),
    }
}

// The same, without that way out: an S block, where it is not walked past, is one that is refused.
fn segments_block(
    block: usize,
    record_length: u32,
    offset: usize,
    pending: usize,
    s: &[u8],
) -> Outcome
    ensures { result ≡ block_outcome format_s block record_length offset pending s.now }
{
    if block < s.len() {
        return answer(7, 0);
    }
    segments_outcome(record_length, pending, s, offset, pending, offset)
}

// The answer on one block, in a file of that format, block length, record length and offset length, with that much pending.
pub fn block_outcome(
    format: u8,
    block: usize,
    record_length: u32,
    offset: usize,
    pending: usize,
    s: &[u8],
) -> Outcome
    ensures { result ≡ block_outcome format block record_length offset pending s.now }
{
    if format == SEGMENTED {
        return segments_block(block, record_length, offset, pending, s);
    }
    if block < s.len() {
        return answer(7, 0);
    }
    if format == FIXED {
        return whole_outcome(fixed_cuts(record_length, s, offset), pending);
    }
    if format == VARIABLE {
        return whole_outcome(variable_cuts(record_length, s, offset), pending);
    }
    answer(7, 0)
}

// ---- what a block holds

// What is held where nothing counts.
pub fn empty() -> Held
    ensures { result ≡ empty }
{
    Held {
        records: 0,
        bytes: 0,
        words: 0,
        padding: 0,
        offset: 0,
    }
}

// The records that end with a segment that has this digit for its indicator.
fn ends_with(digit: u8) -> usize
    ensures { result ≡ ends_with (digit - 48) }
{
    if digit == b'1' {
        return 0;
    }
    if digit == b'2' {
        return 0;
    }
    1
}

// What a block holds whose units end at a place: so many, with control words of `word` bytes, in which so many records end.
// Behind them must be padding.
fn held_up_to(s: &[u8], offset: usize, at: usize, word: usize, units: usize, records: usize) -> Held
    requires { Reached s.now offset at word units }
    ensures { result ≡ held_up_to s.now offset at word units records }
{
    if units == 0 {
        return empty();
    }
    if padding_from(s, at) {
        let words = units * word;
        return Held {
            records,
            bytes: at - offset - words,
            words,
            padding: s.len() - at,
            offset,
        };
    }
    empty()
}

// What a block of fixed-length records holds.
fn fixed_held(record_length: u32, offset: usize, s: &[u8]) -> Held
    ensures { result ≡ held_in format_f record_length offset s.now }
{
    let mut units: usize = 0;
    let mut at = offset;
    loop {
        let n = fixed_length(record_length, s, at);
        if n == 0 {
            return held_up_to(s, offset, at, 0, units, units);
        }
        units += 1;
        at += n;
    }
}

// What a block of variable-length records holds.
fn variable_held(record_length: u32, offset: usize, s: &[u8]) -> Held
    ensures { result ≡ held_in format_d record_length offset s.now }
{
    let mut units: usize = 0;
    let mut at = offset;
    loop {
        let n = variable_length(record_length, s, at);
        if n == 0 {
            return held_up_to(s, offset, at, 4, units, units);
        }
        units += 1;
        at += n;
    }
}

// What a block of segments holds; `record_length` has no part in it.
fn segments_held(record_length: u32, offset: usize, s: &[u8]) -> Held
    ensures { result ≡ held_in format_s record_length offset s.now }
{
    let mut units: usize = 0;
    let mut records: usize = 0;
    let mut at = offset;
    loop {
        let n = segment_length(s, at);
        if n == 0 {
            return held_up_to(s, offset, at, 5, units, records);
        }
        records += ends_with(s[at]);
        units += 1;
        at += n;
    }
}

// What a block holds, in a file of that format, record length and offset length.
pub fn block_held(format: u32, record_length: u32, offset: usize, s: &[u8]) -> Held
    ensures { result ≡ held_in format record_length offset s.now }
{
    if format == FIXED as u32 {
        return fixed_held(record_length, offset, s);
    }
    if format == VARIABLE as u32 {
        return variable_held(record_length, offset, s);
    }
    if format == SEGMENTED as u32 {
        return segments_held(record_length, offset, s);
    }
    empty()
}
