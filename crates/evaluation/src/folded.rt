// A polynomial folded down and evaluated, where that pays: 4,095 = 7 · 5 · 3 · 3 · 13, 1,023 = 11 · 3 · 31, 255 = 5 · 3 · 17. The work
// arrays are made here, so that what does not fold does not clear them.
ghost use Rattle.std.specs.Prelude.{◌≡◌, ℕ, ◌*◌, ◌-◌, ◌/◌, ◌≤◌, ◌<◌, ◌^◌, length};
ghost use Rattle.finite_field.specs.Field.{size_of, bits};
ghost use Rattle.finite_field.specs.Instance.{word_field};
ghost use Rattle.evaluation.specs.Words.{Words};
ghost use Rattle.evaluation.specs.Evaluation as steps;

use crate::folds::{self, Folding};
use crate::zeros::zeros;
use field::Field;

// One folding and those by the further factors, and then the values. The two work slices change places at each.
fn fold_by(
    field: &Field,
    folding: Folding,
    factors: &[usize],
    n: usize,
    from: &mut [u16],
    to: &mut [u16],
    first: usize,
    out: &mut [u16],
)
    requires divided { steps.Divides (size_of field.now.size) folding.classes folding.per folding.part factors.now }
    requires folded { (v : ℕ → (word_field (size_of field.now.size)).C)
        × steps.Folded (size_of field.now.size) folding.classes (folding.per * folding.part) n v from.old }
    requires words { Words (size_of field.now.size) to.old }
    requires long_1 { 2 ^ bits (size_of field.now.size) ≤ length from.old }
    requires long_2 { 2 ^ bits (size_of field.now.size) ≤ length to.old }
    requires n_bound { n < 65536 }
    requires asked { steps.Asked (size_of field.now.size) first (length out.old) out.old }
    requires cleared { steps.Cleared (length out.old) out.old }
    ensures { steps.Finished (size_of field.now.size) first folding.classes (folding.per * folding.part) n from.old
        (length out.old) out.old out.new }
{
    folds::fold(field, folding, n, from, to);
    match factors.split_first() {
        None => folds::finish(field, folding, n, to, first, out),
        Some((per, rest)) => {
            let next = Folding {
                classes: folding.classes * folding.per,
                per: *per,
                part: folding.part / *per,
            };
            fold_by(field, next, rest, n, to, from, first, out);
        }
    }
}

// What `evaluate` promises, where there are WORDS words: their order is divided by `per`, then by the further factors, and what is left
// are the words of a class. The values come as zeros.
#[inline(never)]
pub fn folded<const WORDS: usize>(
    field: &Field,
    per: usize,
    factors: &[usize],
    from: &[u16],
    first: usize,
    out: &mut [u16],
)
    requires given { steps.Given (size_of field.now.size) (length from.now) from.now }
    requires asked { steps.Asked (size_of field.now.size) first (length out.old) out.old }
    requires cleared { steps.Cleared (length out.old) out.old }
    requires words { 2 ^ bits (size_of field.now.size) ≡ WORDS }
    requires factors_1 { per * ((WORDS - 1) / per) ≡ WORDS - 1 }
    requires factors_2 { steps.Divides (size_of field.now.size) 1 per ((WORDS - 1) / per) factors.now }
    ensures { steps.Valued (size_of field.now.size) first (steps.value_at (size_of field.now.size) (length from.now) from.now)
        (length out.old) out.old out.new }
{
    let n = from.len();
    let mut a = zeros::<WORDS>();
    let mut b = zeros::<WORDS>();
    let folding = Folding {
        classes: 1,
        per,
        part: (WORDS - 1) / per,
    };
    a[..n].copy_from_slice(from);
    fold_by(field, folding, factors, n, &mut a, &mut b, first, out);
}

// The same where there are 256 words or more: the number of words says the factors of their order.
pub fn folded_whole(field: &Field, from: &[u16], first: usize, out: &mut [u16])
    requires given { steps.Given (size_of field.now.size) (length from.now) from.now }
    requires asked { steps.Asked (size_of field.now.size) first (length out.old) out.old }
    requires cleared { steps.Cleared (length out.old) out.old }
    requires words { 256 ≤ 2 ^ bits (size_of field.now.size) }
    ensures { steps.Valued (size_of field.now.size) first (steps.value_at (size_of field.now.size) (length from.now) from.now)
        (length out.old) out.old out.new }
{
    match field.powers.len() {
        4096 => folded::<4096>(field, 7, &[5, 3, 3], from, first, out),
        1024 => folded::<1024>(field, 11, &[3], from, first, out),
        _ => folded::<256>(field, 5, &[3], from, first, out),
    }
}
