// A polynomial over a word field at many powers of 2: by folding where there is much to do, word by word where there is little.
#![tactic(auto)]

ghost use Rattle.std.specs.Prelude.{length};
ghost use Rattle.finite_field.specs.Field.{size_of};
ghost use Rattle.evaluation.specs.Evaluation as steps;

use field::Field;

pub mod exponents;
pub mod folded;
pub mod folds;
pub mod zeros;

// The polynomial of the words `from`, at 2^first and the next powers, as many as `out` takes. Folding pays from about 4 · 2^B steps on.
pub fn evaluate(field: &Field, from: &[u16], first: usize, out: &mut [u16])
    requires given { steps.Given (size_of field.now.size) (length from.now) from.now }
    requires asked { steps.Asked (size_of field.now.size) first (length out.old) out.old }
    ensures { steps.Valued (size_of field.now.size) first (steps.value_at (size_of field.now.size) (length from.now) from.now)
        (length out.old) out.old out.new }
{
    let words = field.powers.len();
    out.fill(0);
    if words < 256 || from.len() * out.len() < 4 * words {
        exponents::direct(field, from, first, out);
    } else {
        folded::folded_whole(field, from, first, out);
    }
}
