// What corrected mode words say, and whether it can be so.
ghost use Rattle.std.specs.Prelude.{◌≡◌, ◌≤◌, ◌<◌, length, get_or};
ghost use Rattle.recovery.specs.Stages.{said_layers, said_words, failed_mode};
ghost use Rattle.recovery.specs.Said.{Nibbles};
ghost use Rattle.recovery.specs.FailedMode.{failed_number, failed_conditions};

use symbol::shapes;

// One of the first four words. It is below 16, so no sum here runs over.
fn nibble(words: &[u16], i: usize) -> usize
    requires fact_1 { 4 ≤ length words.now }
    requires fact_2 { Nibbles words.now }
    requires fact_3 { i < 4 }
    ensures { (result ≡ get_or words.now i 0) × (result < 16) }
{
    words[i] as usize
}

// L: the first 2 bits say L − 1 (compact), or the first 5 (full).
#[tactic(auto, unfolding(crate::specs::Stages::said_layers))]
pub fn said_layers(full: bool, words: &[u16]) -> usize
    requires fact_1 { 4 ≤ length words.now }
    requires fact_2 { Nibbles words.now }
    ensures { result ≡ said_layers full words.now }
{
    if full {
        return (nibble(words, 0) * 16 + nibble(words, 1)) / 8 + 1;
    }
    nibble(words, 0) / 4 + 1
}

// D: the next 6 bits say D − 1 (compact), or the next 11 (full).
#[tactic(auto, unfolding(crate::specs::Stages::said_words))]
pub fn said_words(full: bool, words: &[u16]) -> usize
    requires fact_1 { 4 ≤ length words.now }
    requires fact_2 { Nibbles words.now }
    ensures { result ≡ said_words full words.now }
{
    if full {
        return (nibble(words, 1) % 8 * 16 + nibble(words, 2)) * 16 + nibble(words, 3) + 1;
    }
    nibble(words, 0) % 4 * 16 + nibble(words, 1) + 1
}

// Which of the conditions on L and D fail: that L gives the side, that D leaves 3 check words.
#[derive(Clone, Copy, Debug, PartialEq, Eq)]
pub enum Failed {
    Side,
    Words,
    Both,
}

// The conditions that fail, if any.
pub fn failed_of(full: bool, n: usize, layers: usize, data_words: usize) -> Option<Failed>
    requires { (layers ≤ 32) × (data_words ≤ 2048) }
    ensures value { result ≡ failed_conditions full n layers data_words }
    ensures number { failed_number result ≡ failed_mode full n layers data_words }
{
    let side_holds = shapes::side_of(full, layers) == n;
    let words_hold = data_words + 3 <= shapes::words_of(full, layers);
    match (side_holds, words_hold) {
        (true, true) => None,
        (false, true) => Some(Failed::Side),
        (true, false) => Some(Failed::Words),
        (false, false) => Some(Failed::Both),
    }
}
