// The marked places taken out of the syndromes.
ghost use Rattle.std.specs.Prelude.{◌≡◌, ℕ, ◌+◌, ◌≤◌, ◌<◌, ◌^◌, length, get_or};
ghost use Rattle.list_laws.specs.Filled.{filled};
ghost use Rattle.finite_field.specs.Xor.{◌⊕◌};
ghost use Rattle.finite_field.specs.Field.{size_of, bits, product, power};
ghost use Rattle.correction.specs.Received.{Words};
ghost use Rattle.correction.specs.Steps.{ZeroFrom, Erased};

use field::Field;

// One marked place, of locator 2^k, is taken out: u_j ← u_j · 2^k + u_(j+1).
fn take_out(field: &Field, k: usize, count: usize, u: &mut [u16])
    requires words { Words (size_of field.now.size) u.old }
    requires k_bound_1 { k < 2 ^ bits (size_of field.now.size) }
    requires k_bound_2 { count < length u.old }
    ensures { u.new ≡ filled
        (λ (j : ℕ). product (size_of field.now.size) (get_or u.old j 0) (power (size_of field.now.size) k) ⊕ get_or u.old (j + 1) 0) count
        u.old }
{
    let field = *field;
    for j in 0..count {
        u[j] = field.times_power(u[j], k) ^ u[j + 1];
    }
}

// Every marked place is taken out of u, which has count words.
pub fn erase(field: &Field, marks: &[u8], count: usize, u: &mut [u16])
    requires words { Words (size_of field.now.size) u.old }
    requires marks_len_bound_1 { length marks.now ≤ 2 ^ bits (size_of field.now.size) }
    requires marks_len_bound_2 { count < length u.old }
    requires marks_len_bound_3 { ZeroFrom count u.old }
    ensures { Erased (size_of field.now.size) count marks.now u.old u.new }
{
    for (i, mark) in marks.iter().enumerate() {
        if *mark == 1 {
            take_out(field, marks.len() - 1 - i, count, u);
        }
    }
}
