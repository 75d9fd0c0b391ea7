// Products, powers and inverses of words, by tables that are lent. `times_power` is the one place where a product is formed.
#![tactic(auto)]

ghost use Rattle.std.specs.Prelude.{◌≡◌, ◌<◌, ◌^◌};
ghost use Rattle.finite_field.specs.Field.{size_of, bits, Word, product, power, inverse};
ghost use Rattle.finite_field.specs.Tables.{Tables};
ghost use Rattle.field.specs.Turned as turning;

use finite_field::tables;

// A word field by its tables. `size` names the word size for the contracts alone: what the code needs of it is in the tables' length.
// A loop that stores words works on a copy of its own (`let field = *field;`): for all that the compiler knows, a store could change what a
// reference shows, and then each turn would look up again where the tables are.
#[derive(Clone, Copy)]
pub struct Field<'a> {
    pub size: u32,
    pub powers: &'a [u16],
    pub logs: &'a [u16],
    pub ghost tables: { Tables (size_of size) powers.now logs.now },
}

// The exponent e + k, turned over at the order of x, where there are `words` words. There is no branch on the sum.
pub fn turned(size: u32, words: usize, e: usize, k: usize) -> usize
    requires fact_1 { words ≡ 2 ^ bits (size_of size) }
    requires fact_2 { e < words }
    requires fact_3 { k < words }
    ensures { result ≡ turning.turned (size_of size) e k }
{
    let sum = e + k;
    (sum & (words - 1)) + (words <= sum) as usize
}

impl Field<'static> {
    // The field of words of `size` bits. As in the definitions, any other number than 4, 6, 8 and 10 stands for 12.
    pub fn of_size(size: u32) -> Self
        ensures { result.size ≡ size }
    {
        Field {
            size,
            powers: tables::powers(size),
            logs: tables::logs(size),
        }
    }
}

impl<'a> Field<'a> {
    // a · 2^k: the exponents add up, and turn over at the order of x.
    pub fn times_power(&self, a: u16, k: usize) -> u16
        requires word { Word (size_of self.now.size) a }
        requires k_bound { k < 2 ^ bits (size_of self.now.size) }
        ensures { result ≡ product (size_of self.now.size) a (power (size_of self.now.size) k) }
    {
        if a == 0 {
            return 0;
        }
        let e = usize::from(self.logs[usize::from(a)]);
        self.powers[turned(self.size, self.powers.len(), e, k)]
    }

    // a · b.
    pub fn product(&self, a: u16, b: u16) -> u16
        requires a_word { Word (size_of self.now.size) a }
        requires b_word { Word (size_of self.now.size) b }
        ensures { result ≡ product (size_of self.now.size) a b }
    {
        if b == 0 {
            return 0;
        }
        self.times_power(a, usize::from(self.logs[usize::from(b)]))
    }

    // 2^k, for any k.
    pub fn power(&self, k: usize) -> u16
        ensures { result ≡ power (size_of self.now.size) k }
    {
        let order = self.powers.len() - 1;
        self.powers[k % order]
    }

    // 1 / a, and 0 for 0.
    pub fn inverse(&self, a: u16) -> u16
        requires { Word (size_of self.now.size) a }
        ensures { result ≡ inverse (size_of self.now.size) a }
    {
        if a == 0 {
            return 0;
        }
        let order = self.powers.len() - 1;
        self.powers[order - usize::from(self.logs[usize::from(a)])]
    }
}
