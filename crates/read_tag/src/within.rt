// A tag in a light border: read as it stands, and then without one ring after the other.
ghost use Rattle.std.specs.Prelude.{◌≡◌, ◌*◌, ◌<◌, ◌≤◌, length};
ghost use Rattle.read_tag.specs.Within.{told, read_inside, read_within};

use decoder::Decoded;
use grid_text::border;

// What is read inside of some rings. The decoder asks for side² modules and no more.
fn read_inside(
    grid: &[u8],
    side: usize,
    rings: usize,
    inner: &mut [u8],
    message: &mut [u8],
) -> Decoded
    requires { (2 * rings < side) × (side ≤ 255) × (side * side ≤ length grid.now) × (side * side ≤ length inner.old) }
    ensures value { result ≡ (read_inside grid.now side message.old rings).answer }
    ensures message_after { message.new ≡ (read_inside grid.now side message.old rings).message }
{
    border::copy_inner(grid, side, rings, inner);
    let width = side - 2 * rings;
    let count = width * width;
    decoder::decode(&inner[..count], width as u32, message)
}

// The refusal to tell, with one more: the last that isn't 11.
fn tell(before: u32, number: u32) -> u32
    ensures { result ≡ told before number }
{
    if number == 11 {
        return before;
    }
    number
}

// The first reading that is answered counts. If none is, the refusal is that of the smallest grid whose side is a shape's, or 11.
pub fn read_within(grid: &[u8], side: usize, inner: &mut [u8], message: &mut [u8]) -> Decoded
    requires { (side ≤ 255) × (side * side ≤ length grid.now) × (side * side ≤ length inner.old) }
    ensures value { result ≡ (read_within grid.now side message.old).answer }
    ensures message_after { message.new ≡ (read_within grid.now side message.old).message }
{
    let most = (side + 1) / 2;
    let mut refusal: u32 = 11;
    for rings in 0..most {
        let answer = read_inside(grid, side, rings, inner, message);
        if answer.number == 0 {
            return answer;
        }
        refusal = tell(refusal, answer.number);
        if !border::is_light_ring(grid, side, rings) {
            return decoder::delivering::refused(refusal);
        }
    }
    decoder::delivering::refused(refusal)
}
