// Why a block is refused.
ghost use Rattle.std.specs.Prelude.{◌≡◌};
ghost use Rattle.reed_solomon.specs.Refusals.{refusal_number};

// A refusal has the number that the promise gives it.
#[derive(Clone, Copy, PartialEq, Eq, Debug)]
pub enum Refusal {
    // The slices differ in length.
    Lengths = 31,
    // No such word size, or no block has so many words or check words.
    Counts = 32,
    // A mark that is neither 0 nor 1, or a word too large.
    Words = 33,
    // No valid block is near.
    Far = 34,
}

impl From<Refusal> for u32 {
    ghost from_gives = { λ refusal n. n ≡ refusal_number refusal };

    fn from(refusal: Refusal) -> u32 {
        refusal as u32
    }
}
