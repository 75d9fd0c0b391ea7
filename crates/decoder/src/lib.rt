// The decoder (document 01's reader): a sampled grid to its message.
#![tactic(auto)]

ghost use Rattle.std.specs.Prelude.{◌≡◌, Err};
ghost use Rattle.decoder.specs.Decode.{answered, decode_of};
ghost use Rattle.decoder.specs.declared.Refusal.TheVariants.{Grid};

use walk::Buffers;

pub mod delivering;

// Why there is no message: the grid tells none, or the buffer is too short for it (21).
#[derive(Clone, Copy, PartialEq, Eq)]
pub enum Refusal {
    Grid(walk::Refusal),
    Room,
}

impl From<walk::Refusal> for Refusal {
    ghost from_gives = { λ cause refusal. refusal ≡ Grid cause };

    fn from(cause: walk::Refusal) -> Refusal {
        Refusal::Grid(cause)
    }
}

// What the decoder answers: a number, and after 0 the message's length, the shape's number, the position, and the two counts. Any other
// number has zeros beside it.
#[derive(Clone, Copy)]
pub struct Decoded {
    pub number: u32,
    pub length: u32,
    pub shape: u32,
    pub position: u32,
    pub unread: u32,
    pub wrong: u32,
}

impl From<Refusal> for Decoded {
    ghost from_gives = { λ refusal decoded. decoded ≡ answered (Err refusal) };

    fn from(refusal: Refusal) -> Decoded {
        delivering::refused(match refusal {
            Refusal::Grid(cause) => u32::from(cause),
            Refusal::Room => 21,
        })
    }
}

// The message of a grid of side × side modules, 0 light, 1 dark, 2 unread, at the front of the buffer: 0, or 11 to 21. A refusal changes
// nothing. The arrays come first, for any shape (docs/DECISIONS.md, "The compiler").
pub fn decode(grid: &[u8], side: u32, message: &mut [u8]) -> Decoded
    ensures value { result ≡ (decode_of grid.now side message.old).answer }
    ensures message_after { message.new ≡ (decode_of grid.now side message.old).message }
{
    let mut received = [0u16; 1664];
    let mut unread = [0u8; 1664];
    let mut found = [0u16; 1664];
    let mut buffers = Buffers {
        received: &mut received,
        unread: &mut unread,
        found: &mut found,
    };
    match delivering::decode_in(side as usize, grid, &mut buffers, message) {
        Ok(decoded) => decoded,
        Err(refusal) => Decoded::from(refusal),
    }
}
