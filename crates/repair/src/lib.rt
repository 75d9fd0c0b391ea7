// A block whose syndromes are not all 0: the corrections that could make it valid, and whether they are few enough.
#![tactic(auto)]

ghost use Rattle.std.specs.Prelude.{◌≡◌, ◌≤◌, ◌<◌, ◌^◌, length};
ghost use Rattle.list_laws.specs.Filled.{tabulate};
ghost use Rattle.finite_field.specs.Field.{size_of, bits};
ghost use Rattle.block_code.specs.Block.{Words};
ghost use Rattle.block_code.specs.Nearest.{nearest, unread};
ghost use Rattle.repair.specs.Work.{Damaged, Work, Repaired};
ghost use Rattle.correction.specs.Steps as steps;

use correction::{accept, erasures, locator, values};
use evaluation::zeros::zeros;
use field::Field;

// A block as it was read: its words, their marks, how many of them are check words, and how many of those corrections may use up.
#[derive(Clone, Copy)]
pub struct Received<'a> {
    pub words: &'a [u16],
    pub marks: &'a [u8],
    pub check_words: usize,
    pub limit: usize,
}

// Proposes corrections: every block near to the received one is it with them. The work slices come as zeros. Once the locator p is
// found, q has its values, and u the polynomial that vanishes at the places taken.
fn propose(
    field: &Field,
    received: &Received,
    s: &[u16],
    u: &mut [u16],
    p: &mut [u16],
    q: &mut [u16],
    corrections: &mut [u16],
)
    requires syndromes_1 { Words (size_of field.now.size) s.now }
    requires syndromes_2 { steps.ZeroFrom received.now.check_words s.now }
    requires syndromes_3 { length received.now.marks.now < length s.now }
    requires marks_bound_1 { unread received.now.marks.now ≤ received.now.limit }
    requires marks_bound_2 { received.now.limit ≤ received.now.check_words }
    requires marks_bound_3 { received.now.check_words < length received.now.marks.now }
    requires marks_bound_4 { length received.now.marks.now < 2 ^ bits (size_of field.now.size) }
    requires work { Work (length received.now.marks.now) u.old p.old q.old corrections.old }
    ensures { steps.Proposed (size_of field.now.size) received.now.check_words received.now.limit received.now.marks.now s.now
        corrections.new }
{
    let marks = received.marks;
    let n = marks.len();
    let check_words = received.check_words;
    let t = (received.limit - accept::count_marks(marks)) / 2;
    u[..check_words].copy_from_slice(&s[..check_words]);
    erasures::erase(field, marks, check_words, u);
    let degree = locator::locate(field, t, u, p, q);
    evaluation::evaluate(field, &p[..degree + 1], 0, &mut q[..n]);
    u[..check_words].fill(0);
    let m = values::gather(field, p, degree, q, marks, corrections, u);
    values::corrections(field, u, m, s, n, corrections);
}

// The received block with the corrections.
fn write(received: &[u16], marks: &[u8], corrections: &[u16], corrected: &mut [u16])
    requires fact_1 { length marks.now ≡ length received.now }
    requires fact_2 { length corrected.old ≡ length received.now }
    requires fact_3 { length received.now ≤ length corrections.now }
    ensures { corrected.new ≡ tabulate
        (steps.written_at received.now marks.now corrections.now) (length received.now) }
{
    for i in 0..received.len() {
        if marks[i] == 1 {
            corrected[i] = corrections[i];
        } else {
            corrected[i] = received[i] ^ corrections[i];
        }
    }
}

// What `repair` promises, in work slices that come as zeros and are longer than the block.
fn repair_in(
    field: &Field,
    received: &Received,
    s: &mut [u16],
    u: &mut [u16],
    p: &mut [u16],
    q: &mut [u16],
    corrections: &mut [u16],
    corrected: &mut [u16],
) -> bool
    requires damaged { Damaged (size_of field.now.size) received.now.check_words received.now.limit received.now.words.now
        received.now.marks.now s.old }
    requires same_length { length corrected.old ≡ length received.now.words.now }
    requires work { Work (length received.now.words.now) u.old p.old q.old corrections.old }
    ensures { Repaired (nearest (size_of field.now.size) received.now.check_words received.now.limit received.now.words.now
        received.now.marks.now) result corrected.old corrected.new }
{
    propose(field, received, s, u, p, q, corrections);
    let marks = received.marks;
    let checks = &mut s[..received.check_words];
    if accept::is_near(field, corrections, marks, received.limit, checks) {
        write(received.words, marks, corrections, corrected);
        return true;
    }
    false
}

// A block of fewer than N words. The arrays are made before any test (docs/DECISIONS.md, "The compiler"), which is so only in a frame of
// its own.
#[inline(never)]
fn repair_within<const N: usize>(
    field: &Field,
    received: &Received,
    s: &mut [u16],
    corrected: &mut [u16],
) -> bool
    requires buffer { N ≤ 4096 }
    requires damaged { Damaged (size_of field.now.size) received.now.check_words received.now.limit received.now.words.now
        received.now.marks.now s.old }
    requires same_length { length corrected.old ≡ length received.now.words.now }
    requires fits { length received.now.words.now < N }
    ensures { Repaired (nearest (size_of field.now.size) received.now.check_words received.now.limit received.now.words.now
        received.now.marks.now) result corrected.old corrected.new }
{
    let mut u = zeros::<N>();
    let mut p = zeros::<N>();
    let mut q = zeros::<N>();
    let mut corrections = zeros::<N>();
    repair_in(
        field,
        received,
        s,
        &mut u,
        &mut p,
        &mut q,
        &mut corrections,
        corrected,
    )
}

// Whether a block is near, and that block in `corrected`. The syndromes are used up. The work arrays are made here and not before, since
// most blocks need none.
pub fn repair(field: &Field, received: &Received, s: &mut [u16], corrected: &mut [u16]) -> bool
    requires damaged { Damaged (size_of field.now.size) received.now.check_words received.now.limit received.now.words.now
        received.now.marks.now s.old }
    requires same_length { length corrected.old ≡ length received.now.words.now }
    ensures { Repaired (nearest (size_of field.now.size) received.now.check_words received.now.limit received.now.words.now
        received.now.marks.now) result corrected.old corrected.new }
{
    let n = received.words.len();
    if n < 64 {
        return repair_within::<64>(field, received, s, corrected);
    }
    if n < 256 {
        return repair_within::<256>(field, received, s, corrected);
    }
    repair_within::<4096>(field, received, s, corrected)
}
