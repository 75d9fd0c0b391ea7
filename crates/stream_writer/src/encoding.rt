// The encoder's stream: a message's bytes, by codes or in parts of runs, into stuffed words.
ghost use Rattle.std.specs.Prelude.{◌≡◌, not, false, true, ◌++◌, ◌+◌, ◌≤◌, ◌<◌, length, take, drop, MatchOption};
ghost use Rattle.std.proofs.lemmas.List.Edits.{sets};
ghost use Rattle.stream.specs.Bits.{bits};
ghost use Rattle.stream.specs.Codes.{set_number, width, code_of, coded};
ghost use Rattle.stream.specs.Latches.{latch_bits};
ghost use Rattle.stream.specs.Stream as stream;
ghost use Rattle.stream.specs.Stuffing.{stuff};
ghost use Rattle.stream_writer.specs.Writing.{Ready, Wrote};
ghost use Rattle.stream_writer.specs.Encoding.{Turned, words_needed};

use crate::stuffing;
use crate::stuffing::Out;
use stream::codes;
use stream::codes::CodeSet;

// How far the message is written: the words, the set, and the next byte.
#[derive(Clone, Copy)]
pub struct Turn {
    pub out: Out,
    pub set: CodeSet,
    pub next: usize,
}

// Whether no set has b, so that a run takes it.
fn in_run(b: u8) -> bool
    ensures { result ≡ not (coded b) }
{
    codes::home_of(b).is_none()
}

// The length of the next part of a run, from a byte on: at most 31 bytes, up to the first that some set has.
fn part_length(message: &[u8], from: usize) -> usize
    requires { from ≤ length message.now }
    ensures { result ≡ stream.next_part (stream.run_length (drop from message.now)) }
{
    message[from..]
        .iter()
        .take_while(|b| in_run(**b))
        .take(31)
        .count()
}

// The set that b is written in and its code there, if some set has b.
fn target_of(set: CodeSet, b: u8) -> Option<(CodeSet, usize)>
    ensures { MatchOption result (coded b ≡ false) (λ t. (coded b ≡ true)
        × (set_number t.0 ≡ stream.target (set_number set) b) × (t.1 ≡ code_of (set_number t.0) b)) }
{
    let (home, code) = codes::home_of(b)?;
    if home == set {
        return Some((home, usize::from(code)));
    }
    match codes::code_in(set, b) {
        Some(other) => Some((set, other)),
        None => Some((home, usize::from(code))),
    }
}

// The set that a run is written in.
fn run_set_of(set: CodeSet) -> CodeSet
    ensures { set_number result ≡ stream.run_set (set_number set) }
{
    match set {
        CodeSet::Upper | CodeSet::Lower | CodeSet::Mixed => set,
        CodeSet::Punct | CodeSet::Digit => CodeSet::Upper,
    }
}

// A code, after the latches to its set.
fn put_char(
    words: &mut [u16],
    out: Out,
    h: usize,
    set: CodeSet,
    target: CodeSet,
    code: usize,
) -> Out
    requires { Ready h 3000000 out }
    ensures { let t = set_number target in
        Wrote h (latch_bits (set_number set) t ++ bits (width t) code) out words.old result words.new }
{
    let path = codes::latch(set, target);
    let latched = stuffing::put_code(words, out, h, path.code, path.bits);
    stuffing::put_code(words, latched, h, code, codes::width_of(target))
}

// The bytes of a part, 8 bits each.
fn put_bytes(
    words: &mut [u16],
    out: Out,
    h: usize,
    message: &[u8],
    from: usize,
    count: usize,
) -> Out
    requires fact_1 { Ready h 3000000 out }
    requires fact_2 { (from + count ≤ length message.now) × (count ≤ 31) }
    ensures { Wrote h (stream.bytes_bits (take count (drop from message.now))) out
        words.old result words.new }
{
    let mut last = out;
    for byte in &message[from..from + count] {
        last = stuffing::put_code(words, last, h, usize::from(*byte), 8);
    }
    last
}

// A part of a run: the latch to a set that has B/S, B/S, the count, the bytes.
fn put_part(
    words: &mut [u16],
    out: Out,
    h: usize,
    set: CodeSet,
    message: &[u8],
    from: usize,
    count: usize,
) -> Out
    requires fact_1 { Ready h 2000000 out }
    requires fact_2 { (from + count ≤ length message.now) × (count ≤ 31) }
    ensures { Wrote h (stream.part_bits (set_number set) (take count (drop from message.now))) out
        words.old result words.new }
{
    let path = codes::latch(set, run_set_of(set));
    let latched = stuffing::put_code(words, out, h, path.code, path.bits);
    let shifted = stuffing::put_code(words, latched, h, 31, 5);
    let counted = stuffing::put_code(words, shifted, h, count, 5);
    put_bytes(words, counted, h, message, from, count)
}

// The byte at `from`, or the part of a run that starts there.
fn put_next(
    words: &mut [u16],
    out: Out,
    h: usize,
    set: CodeSet,
    message: &[u8],
    from: usize,
) -> Turn
    requires fact_1 { Ready h 1000000 out }
    requires fact_2 { from < length message.now }
    ensures { Turned h message.now from (set_number set) out words.old result words.new }
{
    if let Some((target, code)) = target_of(set, message[from]) {
        let after = put_char(words, out, h, set, target, code);
        return Turn {
            out: after,
            set: target,
            next: from + 1,
        };
    }
    let count = part_length(message, from);
    let after = put_part(words, out, h, set, message, from, count);
    Turn {
        out: after,
        set: run_set_of(set),
        next: from + count,
    }
}

// The words of a message, stored as far as the slice reaches; how many there are. A turn says where the next begins: no range steps so.
pub fn write_words(message: &[u8], word_size: usize, words: &mut [u16]) -> usize
    requires { (2 ≤ word_size) × (word_size ≤ 12) × (length message.now ≤ 4992) }
    ensures value { result ≡ length (stuff word_size (stream.bits_of message.now)) }
    ensures words_after { words.new ≡ sets words.old 0 (stuff word_size (stream.bits_of message.now)) }
{
    let h = word_size - 1;
    let mut out = Out {
        count: 0,
        bits: 0,
        value: 0,
    };
    let mut set = CodeSet::Upper;
    let mut i = 0;
    while i < message.len() {
        let turn = put_next(words, out, h, set, message, i);
        out = turn.out;
        set = turn.set;
        i = turn.next;
    }
    stuffing::finish(words, out, h)
}

// How many words a message takes. No shape holds more than 4,992 bytes: a longer message is answered at once, by more words than any
// shape has. It is a count like any other, and C has it by stream_count.
pub fn count_words(message: &[u8], word_size: usize) -> usize
    requires { (2 ≤ word_size) × (word_size ≤ 12) }
    ensures { result ≡ words_needed word_size message.now }
{
    if 4992 < message.len() {
        return 4993;
    }
    let mut none = [0u16; 1];
    write_words(message, word_size, &mut none)
}
