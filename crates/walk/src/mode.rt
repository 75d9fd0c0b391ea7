// The mode message of an upright grid.
ghost use Rattle.std.specs.Prelude.{◌≡◌, ◌*◌, ◌≤◌, length};
ghost use Rattle.symbol.specs.Places.{mode_run};
ghost use Rattle.walk.specs.Upright.{said_of, mode_of};

use recovery::{correcting, said};
use symbol::places;
use symbol::shapes::Frame;

// What a mode message says: L and D.
#[derive(Clone, Copy)]
pub struct Said {
    pub layers: usize,
    pub data_words: usize,
}

// With room for exactly the mode words.
fn said_in(mode_words: &mut [u16], frame: Frame, upright: &[u8]) -> Option<Said>
    requires { (frame.side * frame.side ≤ length upright.now) × (length mode_words.old ≡ mode_run frame.full) }
    ensures { result ≡ said_of frame.full (mode_of upright.now frame.full frame.side) }
{
    if correcting::correct_mode(frame, upright, mode_words) {
        return Some(Said {
            layers: said::said_layers(frame.full, mode_words),
            data_words: said::said_words(frame.full, mode_words),
        });
    }
    None
}

// Nothing where the mode words are beyond correction.
pub fn said_of(frame: Frame, upright: &[u8]) -> Option<Said>
    requires { frame.side * frame.side ≤ length upright.now }
    ensures { result ≡ said_of frame.full (mode_of upright.now frame.full frame.side) }
{
    let mut mode_words = [0u16; 10];
    let run = places::mode_run_of(frame.full);
    said_in(&mut mode_words[..run], frame, upright)
}
