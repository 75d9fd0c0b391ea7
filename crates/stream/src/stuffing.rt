// What one more bit makes of a word (document 01, "From bytes to words": "Stuffing"); stream_writer puts the bits.

// The word after one more bit: its bits so far and what they say, or the whole word. Neither is a failure, nor a value that is missing.
#[derive(Clone, Copy)]
pub enum Put {
    Part(usize, usize),
    Word(usize),
}
