// The corrector past number 31 and the word size: a refusal for the counts, or the words, then the nearest valid block, or none near.
ghost use Rattle.std.specs.Prelude.{◌≡◌, cond, ℕ, ◌-◌, ◌≤◌, ◌<◌, ◌^◌, eqb, length, get_or};
ghost use Rattle.list_laws.specs.Filled.{tabulate};
ghost use Rattle.finite_field.specs.Field.{WordSize, size_of, bits};
ghost use Rattle.block_code.specs.Nearest.{nearest, unread};
ghost use Rattle.reed_solomon.specs.Correct as answers;
ghost use Rattle.reed_solomon.specs.Refusals.{answer_number};
ghost use Rattle.reed_solomon.specs.BlockRead.{BlockRead};
ghost use Rattle.correction.specs.Steps as steps;

use crate::refusal::Refusal;
use correction::accept;
use evaluation::zeros::zeros;
use field::Field;
use repair::Received;

// A word as the syndromes take it: 0 where it is marked.
fn read_word(word: u16, mark: u8) -> u16
    ensures { result ≡ cond (eqb mark 1) 0 word }
{
    if mark == 1 {
        return 0;
    }
    word
}

// A block's coefficients, the lowest first, and how many words are marked: none where a mark is above 1, or a word that is not marked
// is not below `words`. One pass does it all, since a clean block needs little else.
fn read_block(words: usize, received: &[u16], marks: &[u8], to: &mut [u16]) -> Option<usize>
    requires fact_1 { length marks.now ≡ length received.now }
    requires fact_2 { length received.now ≤ length to.old }
    requires fact_3 { length received.now < 65536 }
    ensures { (s : WordSize) → words ≡ 2 ^ bits s → BlockRead s received.now marks.now result to.new }
{
    let n = received.len();
    let mut e = 0;
    for i in 0..n {
        if 1 < marks[i] {
            return None;
        }
        if marks[i] == 0 {
            if words <= usize::from(received[i]) {
                return None;
            }
        }
        let at = n - 1 - i;
        to[at] = read_word(received[i], marks[i]);
        e += usize::from(marks[i]);
    }
    Some(e)
}

// The block of these coefficients.
fn restore(from: &[u16], to: &mut [u16])
    requires { length to.old ≤ length from.now }
    ensures { to.new ≡ tabulate (λ (i : ℕ). get_or from.now (length to.old - 1 - i) 0)
        (length to.old) }
{
    let n = to.len();
    to.copy_from_slice(&from[..n]);
    to.reverse();
}

// The near block in `corrected`, where few enough words are marked. `work` has the block's coefficients, and s comes as zeros. Where
// all syndromes are 0 the block is near as it stands, and no correction is looked for.
fn solve(
    field: &Field,
    received: &Received,
    work: &[u16],
    s: &mut [u16],
    corrected: &mut [u16],
) -> Result<(), Refusal>
    requires lawful { steps.Lawful (size_of field.now.size) received.now.check_words received.now.limit received.now.words.now
        received.now.marks.now }
    requires same_length { length corrected.old ≡ length received.now.words.now }
    requires few { unread received.now.marks.now ≤ received.now.limit }
    requires coefficients_1 { steps.Coefficients received.now.words.now received.now.marks.now work.now }
    requires coefficients_2 { length received.now.words.now ≤ length work.now }
    requires coefficients_3 { steps.Blank (length received.now.words.now) s.old }
    ensures value { answer_number result ≡ (answers.answer
        (nearest (size_of field.now.size) received.now.check_words received.now.limit received.now.words.now received.now.marks.now)
        corrected.old).number }
    ensures corrected_after { corrected.new ≡ (answers.answer
        (nearest (size_of field.now.size) received.now.check_words received.now.limit received.now.words.now received.now.marks.now)
        corrected.old).words }
{
    let n = received.words.len();
    let checks = received.check_words;
    evaluation::evaluate(field, &work[..n], 1, &mut s[..checks]);
    if accept::all_zero(&s[..checks]) {
        restore(work, corrected);
        return Ok(());
    }
    if repair::repair(field, received, s, corrected) {
        return Ok(());
    }
    Err(Refusal::Far)
}

// The counts, the words, then the near block. The three slices are of one length; the work slices come as zeros, and are longer than a
// lawful block.
fn examine(
    field: &Field,
    check_words: usize,
    received: &[u16],
    marks: &[u8],
    work: &mut [u16],
    s: &mut [u16],
    corrected: &mut [u16],
) -> Result<(), Refusal>
    requires lengths_1 { length marks.now ≡ length received.now }
    requires lengths_2 { length corrected.old ≡ length received.now }
    requires blank_1 { (length received.now < 2 ^ bits (size_of field.now.size) → steps.Blank (length received.now) work.old) }
    requires blank_2 { (length received.now < 2 ^ bits (size_of field.now.size) → steps.Blank (length received.now) s.old) }
    ensures value { answer_number result ≡ (answers.judge_of (size_of field.now.size) check_words received.now
        marks.now corrected.old).number }
    ensures corrected_after { corrected.new ≡ (answers.judge_of (size_of field.now.size) check_words received.now
        marks.now corrected.old).words }
{
    let n = received.len();
    let words = field.powers.len();
    if words <= n {
        return Err(Refusal::Counts);
    }
    if check_words == 0 {
        return Err(Refusal::Counts);
    }
    if n <= check_words {
        return Err(Refusal::Counts);
    }
    let Some(e) = read_block(words, received, marks, work) else {
        return Err(Refusal::Words);
    };
    if check_words < e {
        return Err(Refusal::Far);
    }
    let block = Received {
        words: received,
        marks,
        check_words,
        limit: check_words,
    };
    solve(field, &block, work, s, corrected)
}

// A block of fewer than N words, if it is a lawful one.
//
// The arrays are made before any test (docs/DECISIONS.md, "The compiler"): where a function returns before it needs its frame, and
// the frame is above 32 KiB, LLVM's stack probe overwrites a register that is in use.
#[inline(never)]
fn judge_within<const N: usize>(
    field: &Field,
    check_words: usize,
    received: &[u16],
    marks: &[u8],
    corrected: &mut [u16],
) -> Result<(), Refusal>
    requires buffer { N ≤ 4096 }
    requires lengths_1 { length marks.now ≡ length received.now }
    requires lengths_2 { length corrected.old ≡ length received.now }
    requires fits { (length received.now < 2 ^ bits (size_of field.now.size) → length received.now < N) }
    ensures value { answer_number result ≡ (answers.judge_of (size_of field.now.size) check_words received.now
        marks.now corrected.old).number }
    ensures corrected_after { corrected.new ≡ (answers.judge_of (size_of field.now.size) check_words received.now
        marks.now corrected.old).words }
{
    let mut work = zeros::<N>();
    let mut s = zeros::<N>();
    examine(
        field,
        check_words,
        received,
        marks,
        &mut work,
        &mut s,
        corrected,
    )
}

// The answer for three slices of one length and a lawful word size.
pub fn judge(
    field: &Field,
    check_words: usize,
    received: &[u16],
    marks: &[u8],
    corrected: &mut [u16],
) -> Result<(), Refusal>
    requires { (length marks.now ≡ length received.now) × (length corrected.old ≡ length received.now) }
    ensures value { answer_number result ≡ (answers.judge_of (size_of field.now.size) check_words received.now
        marks.now corrected.old).number }
    ensures corrected_after { corrected.new ≡ (answers.judge_of (size_of field.now.size) check_words received.now
        marks.now corrected.old).words }
{
    let n = received.len();
    if n < 64 {
        return judge_within::<64>(field, check_words, received, marks, corrected);
    }
    if n < 256 {
        return judge_within::<256>(field, check_words, received, marks, corrected);
    }
    judge_within::<4096>(field, check_words, received, marks, corrected)
}
