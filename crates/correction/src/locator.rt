// The locator: Berlekamp and Massey's loop in forward form, so that it vanishes at the locators of the wrong words themselves.
ghost use Rattle.std.specs.Prelude.{◌≡◌, ◌+◌, ◌≤◌, ◌<◌, length};
ghost use Rattle.algebra.specs.KeyEquation as key;
ghost use Rattle.finite_field.specs.Field.{size_of, Word};
ghost use Rattle.finite_field.specs.Instance.{word_field, entry, number};
ghost use Rattle.correction.specs.Received.{Words};
ghost use Rattle.correction.specs.Steps as steps;

use field::Field;

// p_0 · u_at + p_1 · u_(at+1) + ..: count terms.
fn dot(field: &Field, p: &[u16], u: &[u16], at: usize, count: usize) -> u16
    requires p_words { Words (size_of field.now.size) p.now }
    requires u_words { Words (size_of field.now.size) u.now }
    requires count_in_bounds_1 { count ≤ length p.now }
    requires count_in_bounds_2 { at + count ≤ length u.now }
    ensures { result ≡ number (size_of field.now.size)
        (key.dot (word_field (size_of field.now.size)) count (entry (size_of field.now.size) p.now) (entry (size_of field.now.size) u.now) at) }
{
    let field = *field;
    let mut sum: u16 = 0;
    for j in 0..count {
        sum ^= field.product(p[j], u[at + j]);
    }
    sum
}

// p ← b · p + d · x^shift · q, over the coefficients below count.
fn keep_length(field: &Field, b: u16, d: u16, shift: usize, count: usize, p: &mut [u16], q: &[u16])
    requires b_word { Word (size_of field.now.size) b }
    requires d_word { Word (size_of field.now.size) d }
    requires words_1 { Words (size_of field.now.size) p.old }
    requires words_2 { Words (size_of field.now.size) q.now }
    requires words_3 { count ≤ length p.old }
    requires words_4 { count ≤ length q.now }
    ensures { steps.Kept (size_of field.now.size) b d shift count p.old q.now p.new }
{
    let field = *field;
    for j in 0..count {
        let kept = field.product(b, p[j]);
        if shift <= j {
            p[j] = kept ^ field.product(d, q[j - shift]);
        } else {
            p[j] = kept;
        }
    }
}

// p, q ← b · x^shift · p + d · q, p, from the highest coefficient down: shift is at least 1, so what is read is not yet changed.
fn lengthen(field: &Field, b: u16, d: u16, shift: usize, count: usize, p: &mut [u16], q: &mut [u16])
    requires b_word { Word (size_of field.now.size) b }
    requires d_word { Word (size_of field.now.size) d }
    requires shifted { 0 < shift }
    requires words_1 { Words (size_of field.now.size) p.old }
    requires words_2 { Words (size_of field.now.size) q.old }
    requires words_3 { count ≤ length p.old }
    requires words_4 { count ≤ length q.old }
    ensures { steps.Lengthened (size_of field.now.size) b d shift count p.old q.old p.new q.new }
{
    let field = *field;
    for j in (0..count).rev() {
        let old = p[j];
        let kept = field.product(d, q[j]);
        if shift <= j {
            p[j] = kept ^ field.product(b, p[j - shift]);
        } else {
            p[j] = kept;
        }
        q[j] = old;
    }
}

// Where the loop stands: the degree of p, the first place that p is not known to annihilate, and the discrepancy of q.
#[derive(Clone, Copy)]
pub struct Locating {
    pub length: usize,
    pub place: usize,
    pub scale: u16,
}

// One turn of the loop.
fn step(
    field: &Field,
    t: usize,
    u: &[u16],
    p: &mut [u16],
    q: &mut [u16],
    state: Locating,
) -> Locating
    requires words { Words (size_of field.now.size) u.now }
    requires u_in_bounds { t + t ≤ length u.now }
    requires t_in_bounds_1 { t < length p.old }
    requires t_in_bounds_2 { t < length q.old }
    requires t_in_bounds_3 { state.place < t }
    requires locating { steps.Locating (size_of field.now.size) t u.now p.old q.old state.length state.place state.scale }
    ensures locating_2 { steps.Locating (size_of field.now.size) t u.now p.new q.new result.length result.place result.scale }
    ensures place_value { result.length + result.place ≡ state.length + state.place + 1 }
{
    let length = state.length;
    let place = state.place;
    let d = dot(field, p, u, place, length + 1);
    if d == 0 {
        return Locating {
            place: place + 1,
            ..state
        };
    }
    if place < length {
        keep_length(field, state.scale, d, length - 1 - place, length + 1, p, q);
        return Locating {
            place: place + 1,
            ..state
        };
    }
    lengthen(field, state.scale, d, place + 1 - length, place + 2, p, q);
    Locating {
        length: place + 1,
        place: length,
        scale: d,
    }
}

// A locator of degree at most t that annihilates t places of u, and its degree. p and q come as zeros.
pub fn locate(field: &Field, t: usize, u: &[u16], p: &mut [u16], q: &mut [u16]) -> usize
    requires words { Words (size_of field.now.size) u.now }
    requires u_in_bounds { t + t ≤ length u.now }
    requires t_in_bounds_1 { t < length p.old }
    requires t_in_bounds_2 { t < length q.old }
    requires t_in_bounds_3 { steps.ZeroFrom 0 p.old }
    requires t_in_bounds_4 { steps.ZeroFrom 0 q.old }
    ensures located { steps.Located (size_of field.now.size) t u.now result p.new }
    ensures words { Words (size_of field.now.size) q.new }
{
    p[0] = 1;
    let mut state = Locating {
        length: 0,
        place: 0,
        scale: 1,
    };
    while state.place < t {
        state = step(field, t, u, p, q, state);
    }
    state.length
}
