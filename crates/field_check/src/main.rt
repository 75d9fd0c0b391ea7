// Multiplies every pair of words of each field and prints a checksum for each word size, to be held to what polynomial products
// modulo the standard's polynomials give (`stdout`, from scripts/field_checksums.py), and to time a product.
#![tactic(auto)]

ghost use Rattle.std.specs.Prelude.{◌<◌, ◌^◌};
ghost use Rattle.finite_field.specs.Field.{size_of, bits, Word};

use field::Field;
use std::io;

// The checksum `sum`, carried on over the products of a with each word. Counted by a usize the loop took a third longer (docs/LOOK-BACK.md).
fn row(field: &Field, a: u16, sum: u64) -> u64
    requires { Word (size_of field.now.size) a }
{
    let words = field.powers.len() as u16;
    let mut h = sum;
    for b in 0..words {
        h = (h % 4294967296) * 31 + u64::from(field.product(a, b));
    }
    h
}

fn checksum(field: &Field) -> u64 {
    let words = field.powers.len() as u16;
    let mut h: u64 = 0;
    for a in 0..words {
        h = row(field, a, h);
    }
    h % 4294967296
}

fn main(rt: HostRuntime) -> io::Result<()> {
    for size in [4, 6, 8, 10, 12] {
        let sum = checksum(&Field::of_size(size));
        println!(rt; "{size} {sum}")?;
    }
    Ok(())
}
