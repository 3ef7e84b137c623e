// The form in which a file's records are packed: what its entry says, and two numbers that follow from the format.
ghost use Rattle.std.specs.Prelude.{◌≡◌, ◌+◌};
ghost use Rattle.block.specs.Unit.{word_of};
ghost use Rattle.writer.specs.Code.Pens.{most_of};

use base::{FIXED, VARIABLE};
use block::word_of;

// The format and the length of the blocks; the bytes of a control word, and the most bytes of a unit beside it.
// The packer takes the first two as numbers: it stays a call, for which a struct goes through memory (docs/PROVING.md).
#[derive(Clone, Copy)]
pub struct Form {
    pub format: u8,
    pub block: usize,
    pub word: usize,
    pub most: usize,
    ghost words: { word ≡ word_of format },
    ghost block_full: { format ≡ 70 → most ≡ 99999 },
    ghost four_digits: { (format ≡ 70 → ⊥) → most + word ≡ 9999 },
}

// The most bytes of a unit beside its control word.
#[tactic(auto, unfolding(crate::specs::Code::Pens::most_of, base::specs::If::if_b))]
fn most_of(f: u8) -> usize
    ensures { result ≡ most_of f }
{
    match f {
        FIXED => 99999,
        VARIABLE => 9995,
        _ => 9994,
    }
}

// The form of records of a format, in blocks of that length.
#[tactic(auto, using(crate::proofs::Forms::forms))]
pub(crate) fn form_of(format: u8, block: usize) -> Form
    ensures format { result.format ≡ format }
    ensures block { result.block ≡ block }
{
    Form {
        format,
        block,
        word: word_of(format as u32),
        most: most_of(format),
    }
}
