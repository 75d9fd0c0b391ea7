// Values by exponents: where a word is not 0 its share of each value is a power of 2, and no product is formed.
ghost use Rattle.std.specs.Prelude.{◌≡◌, ◌+◌, ◌*◌, ◌≤◌, ◌<◌, ◌^◌, length};
ghost use Rattle.finite_field.specs.Field.{size_of, bits, Word, product, power};
ghost use Rattle.evaluation.specs.Words.{Words};
ghost use Rattle.evaluation.specs.Evaluation as steps;

use field::{Field, turned};

// s_j ← s_j + 2^(start + k · j): the exponent goes on by k and turns over.
pub fn add_powers(field: &Field, start: usize, k: usize, s: &mut [u16])
    requires start_bound { start < 2 ^ bits (size_of field.now.size) }
    requires step_bound { k < 2 ^ bits (size_of field.now.size) }
    requires words { Words (size_of field.now.size) s.old }
    ensures { steps.PowersAdded (size_of field.now.size) start k (length s.old) s.old s.new }
{
    let field = *field;
    let words = field.powers.len();
    let mut e = start;
    for j in 0..s.len() {
        s[j] ^= field.powers[e];
        e = turned(field.size, words, e, k);
    }
}

// The exponent of w · 2^k, where w is not 0.
pub fn exponent(field: &Field, w: u16, k: usize) -> usize
    requires word { Word (size_of field.now.size) w }
    requires positive { 0 < w }
    requires k_bound { k < 2 ^ bits (size_of field.now.size) }
    ensures bound { result < 2 ^ bits (size_of field.now.size) }
    ensures power { power (size_of field.now.size) result ≡ product (size_of field.now.size) w (power (size_of field.now.size) k) }
{
    let e = usize::from(field.logs[usize::from(w)]);
    turned(field.size, field.powers.len(), e, k)
}

// What `evaluate` promises, word by word. The values come as zeros.
pub fn direct(field: &Field, from: &[u16], first: usize, out: &mut [u16])
    requires given { steps.Given (size_of field.now.size) (length from.now) from.now }
    requires asked { steps.Asked (size_of field.now.size) first (length out.old) out.old }
    requires cleared { steps.Cleared (length out.old) out.old }
    ensures { steps.Valued (size_of field.now.size) first (steps.value_at (size_of field.now.size) (length from.now) from.now) (length out.old)
        out.old out.new }
{
    for (k, w) in from.iter().enumerate() {
        if 0 < *w {
            let start = exponent(field, *w, first * k);
            add_powers(field, start, k, out);
        }
    }
}
