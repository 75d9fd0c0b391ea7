// The first listed shape that a message fits.
ghost use Rattle.std.specs.Prelude.{◌≡◌, ◌-◌, ◌≤◌, ◌<◌};
ghost use Rattle.list_laws.specs.Search.{first_from};
ghost use Rattle.symbol.specs.Shapes as shapes;
ghost use Rattle.encoder.specs.Plan as spec;
ghost use Rattle.encoder.specs.Answer.{encoded};

use crate::chosen::Choice;
use crate::{Encoded, Refusal};
use stream_writer::encoding;
use symbol::shapes::Shape;

// The answer that a refusal's number is.
#[tactic(auto, unfolding(crate::specs::Plan::refused))]
pub fn refused(number: u32) -> Encoded
    ensures { result ≡ spec.refused number }
{
    Encoded {
        number,
        shape: 0,
        side: 0,
        data_words: 0,
        check_words: 0,
    }
}

// The shape at place i of the list: C1 to C4, F4 to F32.
#[tactic(auto, unfolding(crate::specs::Plan::listed))]
fn listed(i: usize) -> Shape
    requires { i < 33 }
    ensures { (result.full ≡ shapes.is_full (spec.listed i)) × (result.layers ≡ shapes.layers (spec.listed i)) }
{
    let number = if i < 4 { i + 1 } else { i + 4 };
    Shape::numbered(number)
}

// Whether so many data words leave K at least ceil(percent·n/100) + 3, and keep the limit that the mode message sets.
fn fits(percent: u32, shape: Shape, data_words: usize) -> bool
    requires { percent ≤ 95 }
    ensures { result ≡ spec.fits percent shape.full shape.layers data_words }
{
    let n = shape.words();
    let check = (percent as usize * n + 99) / 100 + 3;
    if n < data_words {
        return false;
    }
    if n - data_words < check {
        return false;
    }
    if shape.full {
        return data_words <= 2048;
    }
    data_words <= 64
}

// The shapes are tried in the order of the list; words are counted anew only where their size changes along it. No shape has room for more
// than 4,992 bytes, so for a longer message none is tried.
pub fn first_fit(message: &[u8], percent: u32) -> Result<Choice, Refusal>
    requires { percent ≤ 95 }
    ensures { encoded result ≡ spec.planned_for message.now (first_from (spec.fits_listed message.now percent) 0 33) }
{
    if 4992 < message.len() {
        return Err(Refusal::TooLong);
    }
    let mut size = 6;
    let mut words = encoding::count_words(message, size);
    for i in 0..33 {
        let shape = listed(i);
        if shape.word_size() != size {
            size = shape.word_size();
            words = encoding::count_words(message, size);
        }
        if fits(percent, shape, words) {
            return Ok(Choice {
                shape,
                data_words: words,
            });
        }
    }
    Err(Refusal::TooLong)
}

// The shape of a message, or why it has none: it is empty, the percentage is outside 5 to 95, no shape fits.
pub fn choose(message: &[u8], percent: u32) -> Result<Choice, Refusal>
    ensures { encoded result ≡ spec.plan_of message.now percent }
{
    if message.len() == 0 {
        return Err(Refusal::Empty);
    }
    if percent < 5 || 95 < percent {
        return Err(Refusal::Percentage);
    }
    first_fit(message, percent)
}
