// The corrector of blocks of words (document 01, "Words and checks" and numbers 31 to 34): the nearest valid block, or a refusal.
#![tactic(auto)]

ghost use Rattle.std.specs.Prelude.{◌≡◌};
ghost use Rattle.reed_solomon.specs.Correct.{correct_of};
ghost use Rattle.reed_solomon.specs.Refusals.{answer_number};

use field::Field;
use refusal::Refusal;

pub mod corrector;
pub mod refusal;

// The nearest valid block in `corrected`, or a refusal, with `corrected` untouched.
fn try_correct(
    word_size: u32,
    check_words: usize,
    received: &[u16],
    marks: &[u8],
    corrected: &mut [u16],
) -> Result<(), Refusal>
    ensures value { answer_number result ≡ (correct_of word_size check_words received.now
        marks.now corrected.old).number }
    ensures corrected_after { corrected.new ≡ (correct_of word_size check_words received.now
        marks.now corrected.old).words }
{
    if marks.len() != received.len() {
        return Err(Refusal::Lengths);
    }
    if corrected.len() != received.len() {
        return Err(Refusal::Lengths);
    }
    if !matches!(word_size, 4 | 6 | 8 | 10 | 12) {
        return Err(Refusal::Counts);
    }
    let field = Field::of_size(word_size);
    corrector::judge(&field, check_words, received, marks, corrected)
}

// The nearest valid block in `corrected` and 0, or a refusal: 31, 32, 33 or 34, with `corrected` untouched.
pub fn correct(
    word_size: u32,
    check_words: usize,
    received: &[u16],
    marks: &[u8],
    corrected: &mut [u16],
) -> u32
    ensures value { result ≡ (correct_of word_size check_words received.now
        marks.now corrected.old).number }
    ensures corrected_after { corrected.new ≡ (correct_of word_size check_words received.now
        marks.now corrected.old).words }
{
    match try_correct(word_size, check_words, received, marks, corrected) {
        Ok(()) => 0,
        Err(refusal) => u32::from(refusal),
    }
}
