// From what the walk tells to the answer: the room for the message, the counts, the message written.
ghost use Rattle.std.specs.Prelude.{◌≡◌, [], ◌<◌, length};
ghost use Rattle.symbol.specs.Shapes.{words as words_in};
ghost use Rattle.walk.specs.Walk.{reading_of, stream_walk};
ghost use Rattle.walk.specs.Told.{plain_layout};
ghost use Rattle.walk.specs.Saying.{SaysMessage};
ghost use Rattle.decoder.specs.Decode as spec;

use crate::{Decoded, Refusal};
use stream_reader::message as stream_message;
use walk::{Buffers, Told, counts, grid};

pub fn refused(number: u32) -> Decoded
    ensures { result ≡ (spec.refused number []).answer }
{
    Decoded {
        number: number,
        length: 0,
        shape: 0,
        position: 0,
        unread: 0,
        wrong: 0,
    }
}

// The answer for a message of so many bytes, which is written if it has room.
fn deliver(
    told: Told,
    received: &[u16],
    unread: &[u8],
    found: &[u16],
    message: &mut [u8],
) -> Result<Decoded, Refusal>
    requires position_below { told.layout.position < 8 }
    requires found_len { length found.now ≡ words_in told.layout.shape.full told.layout.shape.layers }
    requires received_len { (length received.now ≡ length found.now) × (length unread.now ≡ length found.now) }
    requires says_message { SaysMessage (reading_of (plain_layout told.layout) found.now) told.bytes }
    ensures value { spec.answered result ≡ (spec.answer_of message.old (stream_walk (plain_layout told.layout) received.now unread.now
        found.now (reading_of (plain_layout told.layout) found.now))).answer }
    ensures message_after { message.new ≡ (spec.answer_of message.old (stream_walk (plain_layout told.layout) received.now
        unread.now found.now (reading_of (plain_layout told.layout) found.now))).message }
{
    if message.len() < told.bytes {
        return Err(Refusal::Room);
    }
    let shape = told.layout.shape;
    let data_words = told.layout.data_words;
    let words = received.len();
    let unread_words = counts::count_marked(words, unread);
    let wrong_words = counts::count_wrong(words, received, unread, found);
    let size = shape.word_size();
    stream_message::write_message(&found[..data_words], size, message);
    Ok(Decoded {
        number: 0,
        length: told.bytes as u32,
        shape: shape.number() as u32,
        position: told.layout.position as u32,
        unread: unread_words,
        wrong: wrong_words,
    })
}

// The walk and then the delivery.
pub fn decode_in(
    n: usize,
    grid: &[u8],
    buffers: &mut Buffers,
    message: &mut [u8],
) -> Result<Decoded, Refusal>
    ensures value { spec.answered result ≡ (spec.decode_of grid.now n message.old).answer }
    ensures message_after { message.new ≡ (spec.decode_of grid.now n message.old).message }
{
    let told = grid::walk(n, grid, buffers)?;
    let count = told.layout.shape.words();
    deliver(
        told,
        &buffers.received[..count],
        &buffers.unread[..count],
        &buffers.found[..count],
        message,
    )
}
