// Bit stuffing: the stream's bits go one by one into words that are never all 0s or all 1s.
ghost use Rattle.std.specs.Prelude.{◌≡◌, ◌≤◌, ◌<◌, set};
ghost use Rattle.stream.specs.Bits.{bits};
ghost use Rattle.stream.specs.Stuffing.{put};
ghost use Rattle.stream.specs.PutLaws.{State};
ghost use Rattle.stream_writer.specs.Writing.{Ready, Wrote, Ending};

use stream::stuffing::Put;

// How far the writing is: the whole words, the bits of the word so far, and what they say.
#[derive(Clone, Copy)]
pub struct Out {
    pub count: usize,
    pub bits: usize,
    pub value: usize,
}

// One more bit b after the k bits that say v, in words of h + 1 bits.
pub fn put_bit(h: usize, k: usize, v: usize, b: usize) -> Put
    requires fact_1 { (1 ≤ h) × (h ≤ 11) }
    requires fact_2 { State h k v }
    requires fact_3 { b < 2 }
    ensures { result ≡ put h k v b }
{
    let w = v * 2 + b;
    if k == h {
        return Put::Word(w);
    }
    if k + 1 == h {
        if w == 0 {
            return Put::Word(1);
        }
        if w == (1usize << h) - 1 {
            return Put::Word(w * 2);
        }
        return Put::Part(h, w);
    }
    Put::Part(k + 1, w)
}

// A whole word is stored as far as the slice reaches.
fn store(words: &mut [u16], at: usize, word: usize)
    requires { word < 65536 }
    ensures { words.new ≡ set words.old at word }
{
    if at < words.len() {
        words[at] = word as u16;
    }
}

// The `width` bits of a code, the highest first. A whole word is stored and counted.
pub fn put_code(words: &mut [u16], out: Out, h: usize, code: usize, width: usize) -> Out
    requires fact_1 { Ready h 4000000 out }
    requires fact_2 { width ≤ 14 }
    ensures { Wrote h (bits width code) out words.old result words.new }
{
    let mut n = out.count;
    let mut k = out.bits;
    let mut v = out.value;
    for i in (0..width).rev() {
        match put_bit(h, k, v, (code >> i) % 2) {
            Put::Part(bits, value) => {
                k = bits;
                v = value;
            }
            Put::Word(x) => {
                store(words, n, x);
                n += 1;
                k = 0;
                v = 0;
            }
        }
    }
    Out {
        count: n,
        bits: k,
        value: v,
    }
}

// The last word, filled with 1s; how many words there are. put_bit says when the word is whole, which no range tells.
pub fn finish(words: &mut [u16], out: Out, h: usize) -> usize
    requires { Ready h 4000000 out }
    ensures { Ending h out.count out.bits out.value words.old result 0 0 words.new }
{
    let mut n = out.count;
    let mut k = out.bits;
    let mut v = out.value;
    while 0 < k {
        match put_bit(h, k, v, 1) {
            Put::Part(bits, value) => {
                k = bits;
                v = value;
            }
            Put::Word(x) => {
                store(words, n, x);
                n += 1;
                k = 0;
                v = 0;
            }
        }
    }
    n
}
