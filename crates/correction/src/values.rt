// The places that may be wrong, and the values that are missing there.
ghost use Rattle.std.specs.Prelude.{◌≡◌, ℕ, ◌+◌, ◌≤◌, ◌<◌, ◌^◌, length, get_or};
ghost use Rattle.algebra.specs.Sums.{pow};
ghost use Rattle.algebra.specs.Exactness as exactness;
ghost use Rattle.finite_field.specs.Field.{size_of, bits};
ghost use Rattle.finite_field.specs.Instance.{word_field, entry, number, x};
ghost use Rattle.correction.specs.Received.{Words};
ghost use Rattle.correction.specs.Steps as steps;

use field::Field;

// g ← (x + 2^k) · g, where g has degree m.
fn times_root(field: &Field, k: usize, m: usize, g: &mut [u16])
    requires words { Words (size_of field.now.size) g.old }
    requires k_bound_1 { k < 2 ^ bits (size_of field.now.size) }
    requires k_bound_2 { m + 1 < length g.old }
    ensures { steps.Rooted (size_of field.now.size) k m g.old g.new }
{
    let field = *field;
    for j in (0..m + 1).rev() {
        g[j + 1] = field.times_power(g[j + 1], k) ^ g[j];
    }
    g[0] = field.times_power(g[0], k);
}

// Whether word i may be wrong: it is marked, or the locator vanishes at its locator. v has the values of the locator p, of this degree;
// p and degree are for the contract alone.
fn is_taken(field: &Field, p: &[u16], degree: usize, v: &[u16], marks: &[u8], i: usize) -> bool
    requires fact_1 { steps.LocatorValues (size_of field.now.size) degree p.now (length marks.now) v.now }
    requires fact_2 { length marks.now ≤ length v.now }
    requires fact_3 { i < length marks.now }
    ensures { result ≡ steps.taken_at (size_of field.now.size) degree p.now marks.now i }
{
    if marks[i] == 1 {
        return true;
    }
    let k = marks.len() - 1 - i;
    v[k] == 0
}

// Notes the taken places (1) in `places`, makes g the polynomial that vanishes at them, and answers how many there are. Both come as
// zeros; v has the values of the locator p.
pub fn gather(
    field: &Field,
    p: &[u16],
    degree: usize,
    v: &[u16],
    marks: &[u8],
    places: &mut [u16],
    g: &mut [u16],
) -> usize
    requires locator_values { steps.LocatorValues (size_of field.now.size) degree p.now (length marks.now) v.now }
    requires marks_in_bounds_1 { length marks.now ≤ length v.now }
    requires marks_in_bounds_2 { length marks.now ≤ 2 ^ bits (size_of field.now.size) }
    requires marks_in_bounds_3 { length marks.now ≤ length places.old }
    requires marks_in_bounds_2_1 { length marks.now < length g.old }
    requires marks_in_bounds_2_2 { steps.ZeroFrom 0 places.old }
    requires marks_in_bounds_2_3 { steps.ZeroFrom 0 g.old }
    ensures { steps.Gathered (size_of field.now.size) degree p.now marks.now result places.new g.new }
{
    g[0] = 1;
    let mut m = 0;
    for i in 0..marks.len() {
        if is_taken(field, p, degree, v, marks, i) {
            times_root(field, marks.len() - 1 - i, m, g);
            places[i] = 1;
            m += 1;
        }
    }
    m
}

// The value missing at the locator 2^k, a root of g: with the quotient of g by x + 2^k, the sum of its coefficients times the
// syndromes, over 2^k times its value at 2^k.
fn correction(field: &Field, g: &[u16], m: usize, syndromes: &[u16], k: usize) -> u16
    requires g_words { Words (size_of field.now.size) g.now }
    requires syndrome_words { Words (size_of field.now.size) syndromes.now }
    requires m_in_bounds_1 { m < length g.now }
    requires m_in_bounds_2 { m ≤ length syndromes.now }
    requires m_in_bounds_3 { k < 2 ^ bits (size_of field.now.size) }
    ensures { result ≡ number (size_of field.now.size)
        (exactness.correction (word_field (size_of field.now.size)) m (entry (size_of field.now.size) g.now)
        (entry (size_of field.now.size) syndromes.now) (pow (word_field (size_of field.now.size)) (x (size_of field.now.size)) k)) }
{
    let field = *field;
    let mut quotient: u16 = 0;
    let mut numerator: u16 = 0;
    let mut slope: u16 = 0;
    for j in (0..m).rev() {
        quotient = field.times_power(quotient, k) ^ g[j + 1];
        numerator ^= field.product(quotient, syndromes[j]);
        slope = field.times_power(slope, k) ^ quotient;
    }
    let denominator = field.times_power(slope, k);
    field.product(numerator, field.inverse(denominator))
}

// The corrections of n words: `places` has 1 at the noted ones, and then what is missing there; 0 elsewhere.
pub fn corrections(
    field: &Field,
    g: &[u16],
    m: usize,
    syndromes: &[u16],
    n: usize,
    places: &mut [u16],
)
    requires g_words { Words (size_of field.now.size) g.now }
    requires syndrome_words { Words (size_of field.now.size) syndromes.now }
    requires m_in_bounds_1 { m < length g.now }
    requires m_in_bounds_2 { m ≤ length syndromes.now }
    requires m_in_bounds_3 { n ≤ length places.old }
    requires m_in_bounds_4 { n ≤ 2 ^ bits (size_of field.now.size) }
    requires zero_from_1 { steps.ZeroFrom n places.old }
    requires zero_from_2 { ((i : ℕ) → i < n → get_or places.old i 0 ≤ 1) }
    ensures { steps.Corrections (size_of field.now.size) n m g.now syndromes.now
        places.old places.new }
{
    for i in 0..n {
        if places[i] == 1 {
            places[i] = correction(field, g, m, syndromes, n - 1 - i);
        }
    }
}
