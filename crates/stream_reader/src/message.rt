// The message of corrected words: judged first, and written in a second pass.
ghost use Rattle.std.specs.Prelude.{◌≡◌, not, ℕ, ◌+◌, ◌*◌, ◌≤◌, ◌<◌, length, get_or};
ghost use Rattle.std.proofs.lemmas.List.Edits.{sets};
ghost use Rattle.list_laws.specs.Range.{all};
ghost use Rattle.stream.specs.Items as spec;
ghost use Rattle.stream.specs.Stuffing.{flat, unstuff};
ghost use Rattle.item_reader.specs.Places.{rest};
ghost use Rattle.stream_reader.specs.Written.{Room, written};

use crate::reader::Reader;
use item_reader::reading::Place;
use item_reader::{items, reading};
use stream::items::{Fault, Item, Refusal};

// Whether a word is all 0s or all 1s.
fn is_flat(word: u16, word_size: usize) -> bool
    requires { word_size < 17 }
    ensures { result ≡ flat word_size word }
{
    word == 0 || usize::from(word) == (1usize << word_size) - 1
}

// Whether no word is.
fn none_flat(words: &[u16], word_size: usize) -> bool
    requires { word_size < 17 }
    ensures { result ≡ all (length words.now) (λ (i : ℕ). not (flat word_size (get_or words.now i 0))) }
{
    words.iter().all(|word| !is_flat(*word, word_size))
}

// Reads the items to the end, or to the first at fault.
fn read_items(words: &[u16], word_size: usize) -> Result<usize, Refusal>
    requires fact_1 { 2 ≤ word_size }
    requires fact_2 { word_size ≤ 12 }
    requires fact_3 { length words.now ≤ 65536 }
    ensures { result ≡ spec.verdict_of (spec.read_items word_size (unstuff word_size words.now)) }
{
    let mut reader = Reader::new(words, word_size);
    let mut length: usize = 0;
    loop {
        match reader.next() {
            Ok(Some((item, _))) => length += items::bytes_of(item),
            Ok(None) => return Ok(length),
            Err(fault) => {
                let bit = reader.at;
                return Err(Refusal { fault, bit });
            }
        }
    }
}

// What the words say: a message's length, or the refusal.
pub fn judge(words: &[u16], word_size: usize) -> Result<usize, Refusal>
    requires fact_1 { 2 ≤ word_size }
    requires fact_2 { word_size ≤ 12 }
    requires fact_3 { length words.now ≤ 65536 }
    ensures { result ≡ spec.verdict_of (spec.judge word_size words.now) }
{
    if none_flat(words, word_size) {
        return read_items(words, word_size);
    }
    Err(Refusal {
        fault: Fault::FlatWord,
        bit: 0,
    })
}

// Writes the n raw bytes at a place into the message from byte `from` on.
fn write_raw(words: &[u16], h: usize, place: Place, n: usize, message: &mut [u8], from: usize)
    requires h_bound_1 { h < 16 }
    requires h_bound_2 { 8 * n ≤ length (rest h words.now place.word place.bit) }
    requires n_in_bounds { from + n ≤ length message.old }
    ensures { message.new ≡ sets message.old from
        (spec.bytes_of n (rest h words.now place.word place.bit)) }
{
    let mut next = place;
    for i in 0..n {
        let byte = reading::take_bits(words, h, next, 8);
        message[from + i] = byte.value as u8;
        next = byte.next;
    }
}

// Writes the bytes that an item adds, where the place follows its codes.
fn write_item(words: &[u16], h: usize, place: Place, item: Item, message: &mut [u8], from: usize)
    requires h_bound_1 { h < 16 }
    requires h_bound_2 { spec.extra item ≤ length (rest h words.now place.word place.bit) }
    requires item_in_bounds { from + spec.yields item ≤ length message.old }
    ensures { message.new ≡ sets message.old from
        (spec.adds item (rest h words.now place.word place.bit)) }
{
    match item {
        Item::Single(b) => {
            message[from] = b;
        }
        Item::Double(b, c) => {
            message[from] = b;
            message[from + 1] = c;
        }
        Item::Turn(_) => {}
        Item::Raw(n) => {
            write_raw(words, h, place, n, message, from);
        }
    }
}

// Writes the message of words that are judged to have one.
pub fn write_message(words: &[u16], word_size: usize, message: &mut [u8])
    requires le_word_size_1 { 2 ≤ word_size }
    requires le_word_size_2 { word_size ≤ 12 }
    requires le_word_size_3 { length words.now ≤ 65536 }
    requires room { Room (spec.judge word_size words.now) message.old }
    ensures { message.new ≡ written (spec.judge word_size words.now) message.old }
{
    let mut reader = Reader::new(words, word_size);
    let mut length: usize = 0;
    while let Some((item, bytes)) = reader.next().unwrap() {
        write_item(words, word_size - 1, bytes, item, message, length);
        length += items::bytes_of(item);
    }
}
