// Folding: where m · M is the order of 2, x^M at x = 2^j depends on the class j mod m alone, so that each class has a polynomial of M
// words with the same value there (algebra's `Folding`).
ghost use Rattle.std.specs.Prelude.{◌≡◌, ℕ, ◌+◌, ◌*◌, ◌/◌, ◌%◌, ◌≤◌, ◌<◌, ◌^◌, length, get_or};
ghost use Rattle.list_laws.specs.Filled.{filled};
ghost use Rattle.finite_field.specs.Xor.{◌⊕◌};
ghost use Rattle.finite_field.specs.Field.{size_of, bits, product, power};
ghost use Rattle.evaluation.specs.Words.{Words};
ghost use Rattle.evaluation.specs.Evaluation as steps;

use field::Field;

// A step of folding: `classes` classes of `per · part` words each become `classes · per` classes of `part` words.
#[derive(Clone, Copy)]
pub struct Folding {
    pub classes: usize,
    pub per: usize,
    pub part: usize,
}

// to_(into + r) ← from_(at + r), r < count.
fn copy_chunk(from: &[u16], at: usize, count: usize, to: &mut [u16], into: usize)
    requires fact_1 { at + count ≤ length from.now }
    requires fact_2 { into + count ≤ length to.old }
    ensures { steps.Placed (λ (r : ℕ). get_or from.now (at + r) 0) into count to.old to.new }
{
    to[into..into + count].copy_from_slice(&from[at..at + count]);
}

// to_(into + r) ← to_(into + r) · 2^e + from_(at + r), r < count.
fn add_chunk(
    field: &Field,
    e: usize,
    from: &[u16],
    at: usize,
    count: usize,
    to: &mut [u16],
    into: usize,
)
    requires words { Words (size_of field.now.size) to.old }
    requires exponent { e < 2 ^ bits (size_of field.now.size) }
    requires count_in_bounds_1 { at + count ≤ length from.now }
    requires count_in_bounds_2 { into + count ≤ length to.old }
    ensures { steps.Placed
        (λ (r : ℕ). product (size_of field.now.size) (get_or to.old (into + r) 0) (power (size_of field.now.size) e)
        ⊕ get_or from.now (at + r) 0)
        into count to.old to.new }
{
    let field = *field;
    for r in 0..count {
        to[into + r] = field.times_power(to[into + r], e) ^ from[at + r];
    }
}

// The words of one class: to_(into + r) = the polynomial of from_(at + r), from_(at + part + r), .., `chunks` of them, at 2^into; r < part.
fn fold_class(
    field: &Field,
    part: usize,
    chunks: usize,
    from: &[u16],
    at: usize,
    to: &mut [u16],
    into: usize,
)
    requires from_words { Words (size_of field.now.size) from.now }
    requires to_words { Words (size_of field.now.size) to.old }
    requires into_bound_1 { into < 2 ^ bits (size_of field.now.size) }
    requires into_bound_2 { 0 < chunks }
    requires into_bound_3 { at + chunks * part ≤ length from.now }
    requires into_bound_4 { into + part ≤ length to.old }
    ensures { steps.FoldedClass (size_of field.now.size) part chunks from.now at into to.old to.new }
{
    let last = chunks - 1;
    copy_chunk(from, at + last * part, part, to, into);
    for k in (0..last).rev() {
        add_chunk(field, into, from, at + k * part, part, to, into);
    }
}

// The class after `class`, of m.
fn next_class(m: usize, class: usize) -> usize
    requires { class < m }
    ensures { result ≡ (class + 1) % m }
{
    let next = class + 1;
    if next == m {
        return 0;
    }
    next
}

// How many parts of `part` words the first n of `most · part` words take: at least one.
fn pieces(n: usize, part: usize, most: usize) -> usize
    requires fact_1 { 0 < part }
    requires fact_2 { 0 < most }
    requires fact_3 { n < 65536 }
    ensures { steps.Enough n part most result }
{
    let taken = n / part + 1;
    if taken < most {
        return taken;
    }
    most
}

// With m classes, of whose words the first n count: to_(c · part + r) = sum over k of
// from_((c mod m) · per · part + k · part + r) · 2^(c · part · k).
pub fn fold(field: &Field, folding: Folding, n: usize, from: &[u16], to: &mut [u16])
    requires from_words { Words (size_of field.now.size) from.now }
    requires to_words { Words (size_of field.now.size) to.old }
    requires divided_1 { steps.Divided (size_of field.now.size) folding.classes folding.per folding.part }
    requires divided_2 { n < 65536 }
    requires divided_3 { 2 ^ bits (size_of field.now.size) ≤ length from.now }
    requires divided_4 { 2 ^ bits (size_of field.now.size) ≤ length to.old }
    ensures { steps.Refolded (size_of field.now.size) folding.classes folding.per folding.part n
        from.now to.new }
{
    let m = folding.classes;
    let per = folding.per;
    let part = folding.part;
    let chunks = pieces(n, part, per);
    let stride = per * part;
    let classes = m * per;
    let mut class = 0;
    for c in 0..classes {
        fold_class(field, part, chunks, from, class * stride, to, c * part);
        class = next_class(m, class);
    }
}

// out_j ← out_j · 2^(first + j) + from_(((first + j) mod m) · stride + r).
fn add_row(
    field: &Field,
    m: usize,
    stride: usize,
    r: usize,
    from: &[u16],
    first: usize,
    out: &mut [u16],
)
    requires asked { steps.Asked (size_of field.now.size) first (length out.old) out.old }
    requires lt_m_1 { 1 < m }
    requires lt_m_2 { r < stride }
    requires lt_m_3 { m * stride ≤ length from.now }
    ensures { out.new ≡ filled
        (λ (j : ℕ). product (size_of field.now.size) (get_or out.old j 0) (power (size_of field.now.size) (first + j))
        ⊕ get_or from.now ((first + j) % m * stride + r) 0)
        (length out.old) out.old }
{
    let field = *field;
    let mut class = first;
    for j in 0..out.len() {
        out[j] = field.times_power(out[j], first + j) ^ from[class * stride + r];
        class = next_class(m, class);
    }
}

// The values of the classes that the last folding left, of whose words the first n count: out_j = the polynomial of class first + j at
// 2^(first + j). They come as zeros.
pub fn finish(field: &Field, last: Folding, n: usize, from: &[u16], first: usize, out: &mut [u16])
    requires words { Words (size_of field.now.size) from.now }
    requires asked { steps.Asked (size_of field.now.size) first (length out.old) out.old }
    requires cleared { steps.Cleared (length out.old) out.old }
    requires divided_1 { steps.Divided (size_of field.now.size) last.classes last.per last.part }
    requires divided_2 { 1 < last.classes }
    requires divided_3 { n < 65536 }
    requires divided_4 { 2 ^ bits (size_of field.now.size) ≤ length from.now }
    ensures { steps.Finished (size_of field.now.size) first (last.classes * last.per) last.part n from.now
        (length out.old) out.old out.new }
{
    let m = last.classes * last.per;
    let stride = last.part;
    for r in (0..pieces(n, 1, stride)).rev() {
        add_row(field, m, stride, r, from, first, out);
    }
}
