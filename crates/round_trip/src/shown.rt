// A made tag as it is shown to the reader: in a position, with changed modules.
ghost use Rattle.std.specs.Prelude.{◌≡◌, ◌*◌, ◌≤◌, ◌<◌, length, get_or};
ghost use Rattle.symbol.specs.Positions.{back, placed};
ghost use Rattle.decoder.specs.Decode.{decode_of};
ghost use Rattle.round_trip.specs.Changes.{changed_to, damaged};

use decoder::Decoded;
use sampling::upright as turning;
use symbol::shapes::Position;

// The position that takes a position back. Turning upright from there puts an upright tag in the position.
fn back_of(position: usize) -> usize
    ensures { result ≡ back position }
{
    match position {
        1 => 3,
        3 => 1,
        _ => position,
    }
}

// The greatest module: unread.
const UNREAD: u8 = 2;

// Module k after the changes.
fn changed(changes: &[u8], k: usize, was: u8) -> u8
    ensures { result ≡ changed_to was (get_or changes.now k 3) }
{
    match changes.get(k) {
        Some(change) if *change <= UNREAD => *change,
        _ => was,
    }
}

fn damage(changes: &[u8], tag: &mut [u8])
    ensures { tag.new ≡ damaged tag.old changes.now }
{
    for (k, module) in tag.iter_mut().enumerate() {
        *module = changed(changes, k, *module);
    }
}

// The upright tag `made` is put in a position, changed, and read.
pub fn read_shown(
    made: &[u8],
    tag: &mut [u8],
    side: u32,
    position: usize,
    changes: &[u8],
    read: &mut [u8],
) -> Decoded
    requires { (side ≤ 151) × (position < 8) × (side * side ≡ length made.now) × (side * side ≡ length tag.old) }
    ensures value { result ≡ (decode_of
        (damaged (placed side position made.now) changes.now) side read.old).answer }
    ensures read_after { read.new ≡ (decode_of
        (damaged (placed side position made.now) changes.now) side read.old).message }
{
    let back = Position::numbered(back_of(position));
    turning::turn_upright(side as usize, back, made, tag);
    damage(changes, tag);
    decoder::decode(tag, side, read)
}
