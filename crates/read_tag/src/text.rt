// From the program's input to what it holds.
ghost use Rattle.std.specs.Prelude.{◌≡◌};
ghost use Rattle.read_tag.specs.Text.{reading_of, message_of};

use crate::{MODULES, within};
use decoder::Decoded;

// The tag's answer, if the bytes say a grid. `grid` and `inner` are room to work in.
pub fn read_text(
    bytes: &[u8],
    grid: &mut [u8; MODULES],
    inner: &mut [u8; MODULES],
    message: &mut [u8],
) -> Option<Decoded>
    ensures value { result ≡ reading_of bytes.now message.old }
    ensures message_after { message.new ≡ message_of bytes.now message.old }
{
    let modules = grid_text::read_grid(bytes, grid)?;
    let side = usize::from(modules);
    let count = side * side;
    Some(within::read_within(&grid[..count], side, inner, message))
}
