// Whether a candidate is near: its checks, by its corrections alone, and 2r + e against the limit.
ghost use Rattle.std.specs.Prelude.{◌≡◌, true, false, not, ◌&&◌, ℕ, ◌≤◌, ◌<◌, ◌^◌, eqb, length, get_or};
ghost use Rattle.list_laws.specs.Range as range;
ghost use Rattle.finite_field.specs.Field.{size_of, bits, Word};
ghost use Rattle.finite_field.specs.Instance.{word_field};
ghost use Rattle.correction.specs.Received.{Words};
ghost use Rattle.correction.specs.Received.{marked, unread};
ghost use Rattle.correction.specs.Steps as steps;

use evaluation::exponents;
use field::Field;

// The correction at the locator 2^k, which is not 0, goes into each syndrome: s_j ← s_j + correction · 2^(k(j+1)).
fn settle(field: &Field, correction: u16, k: usize, s: &mut [u16])
    requires word { Word (size_of field.now.size) correction }
    requires words { Words (size_of field.now.size) s.old }
    requires k_bound { k < 2 ^ bits (size_of field.now.size) }
    requires positive { 0 < correction }
    ensures { steps.Settled (size_of field.now.size) correction k (length s.old) s.old s.new }
{
    let start = exponents::exponent(field, correction, k);
    exponents::add_powers(field, start, k, s);
}

// All n corrections go into the syndromes of the received block: what is left are those of the candidate.
fn settle_all(field: &Field, corrections: &[u16], n: usize, s: &mut [u16])
    requires correction_words { Words (size_of field.now.size) corrections.now }
    requires words { Words (size_of field.now.size) s.old }
    requires n_in_bounds_1 { n ≤ length corrections.now }
    requires n_in_bounds_2 { n ≤ 2 ^ bits (size_of field.now.size) }
    ensures { steps.SettledAll (size_of field.now.size) n (length s.old) corrections.now s.old s.new }
{
    for i in 0..n {
        if 0 < corrections[i] {
            settle(field, corrections[i], n - 1 - i, s);
        }
    }
}

pub fn all_zero(words: &[u16]) -> bool
    ensures { result ≡ range.all (length words.now) (λ (j : ℕ). eqb (get_or words.now j 0) 0) }
{
    words.iter().all(|word| *word == 0)
}

// r: how many words that were read are corrected.
fn count_wrong(corrections: &[u16], marks: &[u8]) -> usize
    requires { length marks.now ≤ length corrections.now }
    ensures { result ≡ range.count (length marks.now)
        (λ (i : ℕ). not (marked marks.now i) && not (eqb (get_or corrections.now i 0) 0)) }
{
    let words = marks.iter().zip(corrections);
    let wrong = words.filter(|(mark, correction)| **mark != 1 && **correction != 0);
    wrong.count()
}

// e: how many words are marked.
pub fn count_marks(marks: &[u8]) -> usize
    ensures { result ≡ unread marks.now }
{
    marks.iter().filter(|mark| **mark == 1).count()
}

// Whether a block y of these syndromes, with these corrections, is near to y. The syndromes are used up.
pub fn is_near(
    field: &Field,
    corrections: &[u16],
    marks: &[u8],
    limit: usize,
    s: &mut [u16],
) -> bool
    requires correction_words { Words (size_of field.now.size) corrections.now }
    requires words { Words (size_of field.now.size) s.old }
    requires marks_in_bounds_1 { length marks.now ≤ length corrections.now }
    requires marks_in_bounds_2 { length marks.now ≤ 2 ^ bits (size_of field.now.size) }
    ensures accepts { (y : ℕ → (word_field (size_of field.now.size)).C) → steps.SyndromesOf (size_of field.now.size) (length s.old) (length marks.now) y s.old
        → result ≡ true → steps.NearTo (size_of field.now.size) (length s.old) limit marks.now y
        (steps.corrected (size_of field.now.size) y corrections.now) }
    ensures refuses { (y : ℕ → (word_field (size_of field.now.size)).C) → steps.SyndromesOf (size_of field.now.size) (length s.old) (length marks.now) y s.old
        → result ≡ false → steps.NearTo (size_of field.now.size) (length s.old) limit marks.now y
        (steps.corrected (size_of field.now.size) y corrections.now) → ⊥ }
{
    settle_all(field, corrections, marks.len(), s);
    if all_zero(s) {
        return 2 * count_wrong(corrections, marks) + count_marks(marks) <= limit;
    }
    false
}
