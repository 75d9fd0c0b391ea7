// Check words: the remainder of the data words, times x^K, by the generator (x + 2^1) .. (x + 2^K). It is made in place in the tail of
// the block, word by word, so that no buffer but the generator's is wanted.
#![tactic(auto)]

ghost use Rattle.std.specs.Prelude.{◌≡◌, ◌++◌, ℕ, ◌+◌, ◌-◌, ◌≤◌, ◌<◌, ◌^◌, length, get_or, take, drop, replicate};
ghost use Rattle.list_laws.specs.Filled.{tabulate};
ghost use Rattle.finite_field.specs.Xor.{◌⊕◌};
ghost use Rattle.finite_field.specs.Field.{size_of, bits, Word, product, power};
ghost use Rattle.block_code.specs.Block.{Words};
ghost use Rattle.block_code.specs.CheckWords.{times_root, generator, divide_step, remainder, with_check_words};

use evaluation::zeros::zeros;
use field::Field;

// g ← (x + 2^k) · g, where g is m words without its leading 1: they become m + 1. Each takes the one before it as it was, which is
// carried along.
fn add_root(field: &Field, k: usize, m: usize, g: &mut [u16])
    requires words { Words (size_of field.now.size) (take m g.old) }
    requires k_bound_1 { k < 2 ^ bits (size_of field.now.size) }
    requires k_bound_2 { m < length g.old }
    ensures { g.new ≡ times_root (size_of field.now.size) (power (size_of field.now.size) k)
        (take m g.old) ++ drop (m + 1) g.old }
{
    let field = *field;
    let mut above: u16 = 1;
    for i in 0..m {
        let old = g[i];
        g[i] = old ^ field.times_power(above, k);
        above = old;
    }
    g[m] = field.times_power(above, k);
}

// g becomes the generator of as many check words as it is long, without its leading 1.
fn make_generator(field: &Field, g: &mut [u16])
    requires length_bound { length g.old < 2 ^ bits (size_of field.now.size) }
    ensures { g.new ≡ generator (size_of field.now.size) (length g.old) }
{
    for k in 0..g.len() {
        add_root(field, k + 1, k, g);
    }
}

// The first word leaves, the others move up by one place, and 0 comes in at the end.
fn move_up(tail: &mut [u16])
    requires { 0 < length tail.old }
    ensures { tail.new ≡ tabulate (λ (i : ℕ). get_or tail.old (i + 1) 0) (length tail.old) }
{
    let last = tail.len() - 1;
    tail.copy_within(1.., 0);
    tail[last] = 0;
}

// tail ← tail + 2^k · g, word by word.
fn add_multiple(field: &Field, g: &[u16], k: usize, tail: &mut [u16])
    requires words { Words (size_of field.now.size) g.now }
    requires k_bound { k < 2 ^ bits (size_of field.now.size) }
    requires g_in_bounds { length tail.old ≤ length g.now }
    ensures { tail.new ≡ tabulate
        (λ (i : ℕ). get_or tail.old i 0 ⊕ product (size_of field.now.size) (get_or g.now i 0) (power (size_of field.now.size) k))
        (length tail.old) }
{
    let field = *field;
    for i in 0..tail.len() {
        tail[i] ^= field.times_power(g[i], k);
    }
}

// One step of the division by g: a data word comes in, and the remainder in `tail` moves up and takes g times what leaves. The
// logarithm of what leaves is looked up once for all products.
fn divide_step(field: &Field, g: &[u16], word: u16, tail: &mut [u16])
    requires g_words { Words (size_of field.now.size) g.now }
    requires word_1 { Word (size_of field.now.size) word }
    requires word_2 { Words (size_of field.now.size) tail.old }
    requires tail_len_1 { length tail.old ≡ length g.now }
    requires tail_len_2 { 0 < length tail.old }
    ensures { tail.new ≡ divide_step (size_of field.now.size) g.now tail.old word }
{
    let factor = word ^ tail[0];
    move_up(tail);
    if factor == 0 {
        return;
    }
    let k = usize::from(field.logs[usize::from(factor)]);
    add_multiple(field, g, k, tail);
}

// The words before data_words go through the division by g one by one. The remainder is in the tail, from data_words on.
fn divide(field: &Field, g: &[u16], data_words: usize, block: &mut [u16])
    requires g_words { Words (size_of field.now.size) g.now }
    requires block_words { Words (size_of field.now.size) block.old }
    requires data_words_in_bounds_1 { data_words < length block.old }
    requires data_words_in_bounds_2 { length g.now ≡ length block.old - data_words }
    ensures { block.new ≡ take data_words block.old ++ remainder (size_of field.now.size) g.now
        (drop data_words block.old) (take data_words block.old) }
{
    for i in 0..data_words {
        let word = block[i];
        divide_step(field, g, word, &mut block[data_words..]);
    }
}

// The tail of the block from data_words on becomes the check words of the words before it, by the generator g. What it held must not
// go into the remainder.
fn fill_tail(field: &Field, g: &[u16], data_words: usize, block: &mut [u16])
    requires is_generator { g.now ≡ generator (size_of field.now.size) (length block.old - data_words) }
    requires data_words_in_bounds_1 { data_words < length block.old }
    requires data_words_in_bounds_2 { Words (size_of field.now.size) (take data_words block.old) }
    ensures { block.new ≡ with_check_words (size_of field.now.size) data_words block.old }
{
    block[data_words..].fill(0);
    divide(field, g, data_words, block);
}

// The generator is made in the buffer g, and the tail is filled.
fn fill_by(field: &Field, g: &mut [u16], data_words: usize, block: &mut [u16])
    requires g_in_bounds { length block.old ≤ length g.old }
    requires length_bound { length block.old < 2 ^ bits (size_of field.now.size) }
    requires data_words_in_bounds_1 { data_words < length block.old }
    requires data_words_in_bounds_2 { Words (size_of field.now.size) (take data_words block.old) }
    ensures { block.new ≡ with_check_words (size_of field.now.size) data_words block.old }
{
    let check = block.len() - data_words;
    make_generator(field, &mut g[..check]);
    fill_tail(field, &g[..check], data_words, block);
}

// A block of N words at most. A local array is cleared at each call, so a short block has a short one for its generator.
#[inline(never)]
fn fill_within<const N: usize>(field: &Field, data_words: usize, block: &mut [u16])
    requires buffer { N ≤ 4096 }
    requires lengths { (length block.old ≤ N) × (length block.old < 2 ^ bits (size_of field.now.size)) }
    requires data_words_in_bounds { (data_words < length block.old) × (Words (size_of field.now.size) (take data_words block.old)) }
    ensures { block.new ≡ with_check_words (size_of field.now.size) data_words block.old }
{
    let mut g = zeros::<N>();
    fill_by(field, &mut g, data_words, block);
}

// The tail of the block from data_words on becomes the check words of the words before it, which stay.
pub fn fill_check_words(size: u32, data_words: usize, block: &mut [u16])
    requires size_value_1 { bits (size_of size) ≡ size }
    requires size_value_2 { data_words < length block.old }
    requires size_value_3 { length block.old < 2 ^ size }
    requires words { Words (size_of size) (take data_words block.old) }
    ensures { block.new ≡ with_check_words (size_of size) data_words block.old }
{
    let field = Field::of_size(size);
    if block.len() < 256 {
        fill_within::<256>(&field, data_words, block);
    } else {
        fill_within::<4096>(&field, data_words, block);
    }
}
