// The reader's place in the corrected words, with the stuffed bits passed over. In words of B bits, h is B − 1.
ghost use Rattle.std.specs.Prelude.{◌≡◌, suc, ◌+◌, ◌-◌, ◌/◌, ◌%◌, ◌^◌, ◌≤◌, ◌<◌, length, drop};
ghost use Rattle.stream.specs.Stuffing.{unstuff_from};
ghost use Rattle.item_reader.specs.Places.{word_length, rest, Taken};

// Stream bit `bit` of word `word` and of the words after it.
#[derive(Clone, Copy)]
pub struct Place {
    pub word: usize,
    pub bit: usize,
}

// What some bits say, and the place after them.
#[derive(Clone, Copy)]
pub struct Bits {
    pub value: usize,
    pub next: Place,
}

// How many stream bits a word holds.
pub fn word_length(word: u16, h: usize) -> usize
    requires { h < 16 }
    ensures { result ≡ word_length h word }
{
    let first = usize::from(word) / 2;
    if first == 0 || first == (1usize << h) - 1 {
        return h;
    }
    h + 1
}

// How many stream bits all the words hold.
pub fn stream_length(words: &[u16], h: usize) -> usize
    requires fact_1 { h < 16 }
    requires fact_2 { length words.now ≤ 65536 }
    ensures value { result ≡ length (unstuff_from h words.now) }
    ensures upper_bound { result ≤ 1048576 }
{
    words.iter().map(|word| word_length(*word, h)).sum()
}

// k bits of a word, from a bit on.
fn word_part(word: u16, h: usize, bit: usize, k: usize) -> usize
    requires fact_1 { h < 16 }
    requires fact_2 { bit + k ≤ h + 1 }
    ensures { result ≡ word / 2 ^ (suc h - (bit + k)) % 2 ^ k }
{
    (usize::from(word) >> (h + 1 - (bit + k))) % (1usize << k)
}

// Takes n bits, as many of a word at once as it has left. A turn takes some of them or passes to the next word, so no range counts the turns.
pub fn take_bits(words: &[u16], h: usize, place: Place, n: usize) -> Bits
    requires h_bound_1 { h < 16 }
    requires h_bound_2 { n ≤ 16 }
    requires n_in_bounds { n ≤ length (rest h words.now place.word place.bit) }
    ensures { Taken (rest h words.now place.word place.bit) n result.value
        (rest h words.now result.next.word result.next.bit) }
{
    let mut word = place.word;
    let mut bit = place.bit;
    let mut value: usize = 0;
    let mut left = n;
    while 0 < left {
        let x = words[word];
        let size = word_length(x, h);
        if size <= bit {
            bit -= size;
            word += 1;
        } else {
            let k = left.min(size - bit);
            value = (value << k) + word_part(x, h, bit, k);
            bit += k;
            left -= k;
        }
    }
    Bits {
        value,
        next: Place { word, bit },
    }
}

// The place n bits on.
pub fn forward(words: &[u16], h: usize, place: Place, n: usize) -> Place
    requires fact_1 { h < 16 }
    requires fact_2 { place.bit ≤ 16 }
    requires fact_3 { n ≤ 1048576 }
    ensures bit_value { rest h words.now result.word result.bit ≡ drop n (rest h words.now place.word place.bit) }
    ensures bit_bound { result.bit ≤ 16 }
{
    if n == 0 {
        return place;
    }
    let mut bit = place.bit + n;
    for word in place.word..words.len() {
        let size = word_length(words[word], h);
        if bit < size {
            return Place { word, bit };
        }
        bit -= size;
    }
    Place {
        word: words.len(),
        bit: 0,
    }
}
