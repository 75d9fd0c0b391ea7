// Demand 3 at work: a tag is made, put in a position, changed, and read. The reading-back theorem is a promise of the function.
#![tactic(auto)]

ghost use Rattle.std.specs.Prelude.{◌≡◌, ◌%◌, ◌≤◌, ◌<◌, length};
ghost use Rattle.round_trip.specs.RoundTrip.{round_trip_in, round_trip_of, ReadsBack};
ghost use Rattle.round_trip.specs.Unchanged.{ReadsUnchanged};

use decoder::{Decoded, delivering};

pub mod shown;

// The tag made, put in a position below 8, changed and read, with room for two grids of any shape.
fn trip_in(
    made: &mut [u8],
    tag: &mut [u8],
    message: &[u8],
    percent: u32,
    position: usize,
    changes: &[u8],
    read: &mut [u8],
) -> Decoded
    requires { (22801 ≤ length made.old) × (22801 ≤ length tag.old) × (position < 8) }
    ensures value { result ≡ (round_trip_in message.now percent position changes.now read.old).answer }
    ensures read_after { read.new ≡ (round_trip_in message.now percent position
        changes.now read.old).message }
{
    let answer = encoder::encode(message, percent, made);
    if answer.number != 0 {
        return delivering::refused(answer.number);
    }
    let side = answer.side;
    let area = side as usize * side as usize;
    shown::read_shown(
        &made[..area],
        &mut tag[..area],
        side,
        position,
        changes,
        read,
    )
}

// The answer of the encoder if it refuses, with 1, 2 or 3. Else its tag in position `position % 8`, in which module k becomes changes[k]
// if there is such an entry and it is 0, 1 or 2, is read into `read`. Within demand 3's premises the answer is the one due (reads_back);
// with no changes every message that fits is read back, in every position (reads_unchanged).
pub fn round_trip(
    message: &[u8],
    percent: u32,
    position: u32,
    changes: &[u8],
    read: &mut [u8],
) -> Decoded
    ensures value { result ≡ (round_trip_of message.now percent position changes.now read.old).answer }
    ensures read_after { read.new ≡ (round_trip_of message.now percent position
        changes.now read.old).message }
    ensures reads_back { ReadsBack message.now percent (position % 8) changes.now read.old result read.new }
    ensures reads_unchanged { ReadsUnchanged message.now percent (position % 8) changes.now read.old result read.new }
{
    let mut made = [0u8; 22801];
    let mut tag = [0u8; 22801];
    trip_in(
        &mut made,
        &mut tag,
        message,
        percent,
        (position % 8) as usize,
        changes,
        read,
    )
}
