// A grid's way through the stages (document 01, "How a grid is read"), up to the block that says a message. It ends with what was told, or with
// a refusal and what its stage knew; the decoder's answer is drawn from it.
#![tactic(auto)]

ghost use Rattle.std.specs.Prelude.{◌≡◌, ◌+◌, ◌≤◌};
ghost use Rattle.symbol.specs.Shapes.{words};
ghost use Rattle.walk.specs.Rooms.{Rooms};
ghost use Rattle.walk.specs.Walk.{refusal_number};
ghost use Rattle.walk.specs.declared.Refusal.TheVariants as refusal;

use orientation::position::Unplaced;
use recovery::said::Failed;
use stream::items;
use symbol::shapes::Shape;

pub mod block;
pub mod counts;
pub mod grid;
pub mod mode;

// What a grid was taken for: its shape, its position and D, which leaves 3 check words.
#[derive(Clone, Copy)]
pub struct Layout {
    pub shape: Shape,
    pub position: usize,
    pub data_words: usize,
    pub ghost least: { 1 ≤ data_words },
    pub ghost checked: { data_words + 3 ≤ words shape.full shape.layers },
}

// Where the walk leaves a block's words, with room for those of any shape: the words received, a mark for each that has an unread module, and
// the block found.
#[derive(Drop)]
pub struct Buffers<'a> {
    pub received: &'a mut [u16],
    pub unread: &'a mut [u8],
    pub found: &'a mut [u16],
    pub ghost rooms: { Rooms received.now unread.now found.now },
}

// What a grid tells: a message of so many bytes, in this layout. The block's words stand in buffers beside it.
#[derive(Clone, Copy)]
pub struct Told {
    pub layout: Layout,
    pub bytes: usize,
}

// Why a grid tells no message, with what the stage that refuses it knows.
#[derive(Clone, Copy, PartialEq, Eq)]
pub enum Refusal {
    // 11: the side is no shape's.
    Side,
    // 12: the grid's length isn't side².
    Length,
    // 13: a module is above 2.
    Module,
    // 14: no position is the best alone.
    Unplaced(Unplaced),
    // 15: the mode words are beyond correction.
    Mode,
    // 16: the conditions on L and D that fail.
    Unlawful(Failed),
    // 17: e, the words that are erasures, flat data words among them, and K.
    Uncorrected { erasures: u32, checks: u32 },
    // 18, 19 or 20: the data words have no message.
    Faulty(items::Refusal),
}

impl From<Unplaced> for Refusal {
    ghost from_gives = { λ cause given. given ≡ refusal.Unplaced cause };

    fn from(cause: Unplaced) -> Refusal {
        Refusal::Unplaced(cause)
    }
}

impl From<items::Refusal> for Refusal {
    ghost from_gives = { λ cause given. given ≡ refusal.Faulty cause };

    fn from(cause: items::Refusal) -> Refusal {
        Refusal::Faulty(cause)
    }
}

// Document 01's number.
impl From<Refusal> for u32 {
    ghost from_gives = { λ given number. number ≡ refusal_number given };

    fn from(given: Refusal) -> u32 {
        match given {
            Refusal::Side => 11,
            Refusal::Length => 12,
            Refusal::Module => 13,
            Refusal::Unplaced(_) => 14,
            Refusal::Mode => 15,
            Refusal::Unlawful(_) => 16,
            Refusal::Uncorrected { .. } => 17,
            Refusal::Faulty(cause) => u32::from(cause.fault),
        }
    }
}
