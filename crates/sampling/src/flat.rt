// Data words of all 0s or all 1s. Stuffing rules them out, so that such a word was read wrong; check words may well be flat.
ghost use Rattle.std.specs.Prelude.{◌≡◌, cond, ◌||◌, ◌-◌, ◌^◌, ◌≤◌, eqb, length};
ghost use Rattle.sampling.specs.Flat.{flat_marked};

// The word of all 1s.
fn ones_of(size: usize) -> u16
    requires { size ≤ 12 }
    ensures { result ≡ 2 ^ size - 1 }
{
    (1 << size) - 1
}

// A word's mark, given the word of all 1s.
fn flat_mark(ones: u16, word: u16, mark: u8) -> u8
    ensures { result ≡ cond (eqb word 0 || eqb word ones) 1 mark }
{
    if word == 0 || word == ones { 1 } else { mark }
}

// Marks those of the first `count` words, the data words.
pub fn mark_flat(size: usize, count: usize, words: &[u16], marks: &mut [u8])
    requires { (size ≤ 12) × (count ≤ length words.now) × (length marks.old ≡ length words.now) }
    ensures { marks.new ≡ flat_marked size count words.now marks.old }
{
    let ones = ones_of(size);
    for w in 0..count {
        marks[w] = flat_mark(ones, words[w], marks[w]);
    }
}
