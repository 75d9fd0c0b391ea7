// Mode words: layers and data words, said in the core ring, with check words of their own.
ghost use Rattle.std.specs.Prelude.{◌≡◌, ◌≤◌, length};
ghost use Rattle.symbol.specs.Shapes.{most_words};
ghost use Rattle.symbol.specs.Places.{mode_run};
ghost use Rattle.encoder.specs.ModeMessage.{mode_codewords};

use symbol::shapes::Shape;

// The mode words of a shape with so many data words. Compact: L − 1 in 2 bits, D − 1 in 6, and 5 check words; full: L − 1 in 5 bits, D − 1 in
// 11, and 6 check words.
pub fn fill_mode_words(shape: Shape, data_words: usize, words: &mut [u16])
    requires { (1 ≤ data_words) × (data_words ≤ most_words shape.full) × (length words.old ≡ mode_run shape.full) }
    ensures { words.new ≡ mode_codewords shape.full shape.layers data_words }
{
    let (most, count) = if shape.full { (2048, 4) } else { (64, 2) };
    let v = (shape.layers - 1) * most + (data_words - 1);
    let said = [
        (v / 4096 % 16) as u16,
        (v / 256 % 16) as u16,
        (v / 16 % 16) as u16,
        (v % 16) as u16,
    ];
    words[..count].copy_from_slice(&said[4 - count..]);
    check_words::fill_check_words(4, count, words);
}
