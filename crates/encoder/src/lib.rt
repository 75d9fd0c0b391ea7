// The encoder (document 01's maker): a message and a check percentage to the symbol in the first listed shape that fits.
#![tactic(auto)]

ghost use Rattle.std.specs.Prelude.{◌≡◌, Ok, Err};
ghost use Rattle.encoder.specs.Answer.{encoded};
ghost use Rattle.encoder.specs.Encode.{encode_of};
ghost use Rattle.encoder.specs.Plan.{plan_of};

use chosen::Choice;

pub mod chosen;
pub mod message_symbol;
pub mod mode;
pub mod planning;

// What an encoder's entry answers: a number, and after 0 the shape's number, the side, D and K. Any other number has zeros beside it.
#[derive(Clone, Copy)]
pub struct Encoded {
    pub number: u32,
    pub shape: u32,
    pub side: u32,
    pub data_words: u32,
    pub check_words: u32,
}

// Why a message has no symbol.
#[derive(Clone, Copy, Debug, PartialEq, Eq)]
pub enum Refusal {
    // 1: it is empty.
    Empty,
    // 2: the percentage is outside 5 to 95.
    Percentage,
    // 3: no listed shape fits.
    TooLong,
    // 4: the grid is shorter than side².
    Room,
}

impl From<Choice> for Encoded {
    ghost from_gives = { λ choice answer. answer ≡ encoded (Ok choice) };

    fn from(choice: Choice) -> Encoded {
        let shape = choice.shape;
        Encoded {
            number: 0,
            shape: shape.number() as u32,
            side: shape.side() as u32,
            data_words: choice.data_words as u32,
            check_words: (shape.words() - choice.data_words) as u32,
        }
    }
}

impl From<Refusal> for Encoded {
    ghost from_gives = { λ refusal answer. answer ≡ encoded (Err refusal) };

    fn from(refusal: Refusal) -> Encoded {
        planning::refused(match refusal {
            Refusal::Empty => 1,
            Refusal::Percentage => 2,
            Refusal::TooLong => 3,
            Refusal::Room => 4,
        })
    }
}

impl From<Result<Choice, Refusal>> for Encoded {
    ghost from_gives = { λ chosen answer. answer ≡ encoded chosen };

    fn from(chosen: Result<Choice, Refusal>) -> Encoded {
        match chosen {
            Ok(found) => Encoded::from(found),
            Err(refusal) => Encoded::from(refusal),
        }
    }
}

// The answer for a message, without a symbol: 0, 1, 2 or 3.
pub fn plan(message: &[u8], percent: u32) -> Encoded
    ensures { result ≡ plan_of message.now percent }
{
    Encoded::from(planning::choose(message, percent))
}

fn encode_chosen(message: &[u8], percent: u32, grid: &mut [u8]) -> Result<Choice, Refusal>
    ensures value { encoded result ≡ (encode_of message.now percent grid.old).answer }
    ensures grid_after { grid.new ≡ (encode_of message.now percent grid.old).grid }
{
    let choice = planning::choose(message, percent)?;
    let side = choice.shape.side();
    if grid.len() < side * side {
        return Err(Refusal::Room);
    }
    message_symbol::draw_message(message, choice.shape, choice.data_words, grid);
    Ok(choice)
}

// The symbol of a message at the front of the grid: 0, 1, 2, 3 or 4. A refusal changes nothing.
pub fn encode(message: &[u8], percent: u32, grid: &mut [u8]) -> Encoded
    ensures value { result ≡ (encode_of message.now percent grid.old).answer }
    ensures grid_after { grid.new ≡ (encode_of message.now percent grid.old).grid }
{
    Encoded::from(encode_chosen(message, percent, grid))
}
