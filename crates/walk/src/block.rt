// From an upright grid to what it tells: the mode message, the block of the shape that it says, and what the block's data words say.
ghost use Rattle.std.specs.Prelude.{◌≡◌, ◌*◌, ◌≤◌, length};
ghost use Rattle.stream.specs.Items as items;
ghost use Rattle.symbol.specs.Shapes.{words};
ghost use Rattle.symbol.specs.Drawing.{area};
ghost use Rattle.sampling.specs.Sampled.{block_words_of, block_marks_of};
ghost use Rattle.walk.specs.Walk.{reading_of, block_walk, Left};
ghost use Rattle.walk.specs.Upright.{judged_of, upright_walk};
ghost use Rattle.walk.specs.Told.{plain_layout, plain, Walked};

use crate::{Buffers, Layout, Refusal, Told, counts, mode};
use recovery::{correcting, said};
use stream_reader::message as stream_message;
use symbol::shapes::{Frame, Shape};

// What the data words of a block say: a message's length, or 18, 19 or 20.
fn judge_block(layout: Layout, found: &[u16]) -> Result<Told, Refusal>
    requires { length found.now ≡ words layout.shape.full layout.shape.layers }
    ensures { plain result ≡ judged_of (plain_layout layout) (items.verdict_of (reading_of (plain_layout layout) found.now)) }
{
    let size = layout.shape.word_size();
    let bytes = stream_message::judge(&found[..layout.data_words], size)?;
    Ok(Told { layout, bytes })
}

// The block and what it says, with room for exactly its words.
fn walk_block(
    layout: Layout,
    upright: &[u8],
    received: &mut [u16],
    unread: &mut [u8],
    marks: &mut [u8],
    found: &mut [u16],
) -> Result<Told, Refusal>
    requires upright_len { area layout.shape.full layout.shape.layers ≤ length upright.now }
    requires received_len { (length received.old ≡ words layout.shape.full layout.shape.layers)
        × (length unread.old ≡ words layout.shape.full layout.shape.layers) }
    requires marks_len { (length marks.old ≡ words layout.shape.full layout.shape.layers)
        × (length found.old ≡ words layout.shape.full layout.shape.layers) }
    ensures value { plain result ≡ (block_walk (plain_layout layout) (block_words_of layout.shape.full layout.shape.layers upright.now)
        (block_marks_of layout.shape.full layout.shape.layers upright.now)).outcome }
    ensures left { Left (block_walk (plain_layout layout) (block_words_of layout.shape.full layout.shape.layers upright.now)
        (block_marks_of layout.shape.full layout.shape.layers upright.now))
        received.new unread.new found.new }
{
    let shape = layout.shape;
    let data_words = layout.data_words;
    if correcting::correct_block(received, unread, marks, shape, data_words, upright, found) {
        return judge_block(layout, found);
    }
    let erasures = counts::count_marked(marks.len(), marks);
    let checks = (received.len() - data_words) as u32;
    Err(Refusal::Uncorrected { erasures, checks })
}

// The mode message of an upright grid, and then its block, with room for the words of any shape.
pub fn walk_upright(
    frame: Frame,
    position: usize,
    upright: &[u8],
    buffers: &mut Buffers,
) -> Result<Told, Refusal>
    requires { frame.side * frame.side ≤ length upright.now }
    ensures { Walked (upright_walk upright.now frame.full frame.side position) buffers.old result buffers.new }
{
    let mut marks = [0u8; 1664];
    let Some(said) = mode::said_of(frame, upright) else {
        return Err(Refusal::Mode);
    };
    let data_words = said.data_words;
    if let Some(failed) = said::failed_of(frame.full, frame.side, said.layers, data_words) {
        return Err(Refusal::Unlawful(failed));
    }
    let shape = Shape {
        full: frame.full,
        layers: said.layers,
    };
    let layout = Layout {
        shape,
        position,
        data_words,
    };
    let count = shape.words();
    walk_block(
        layout,
        upright,
        &mut buffers.received[..count],
        &mut buffers.unread[..count],
        &mut marks[..count],
        &mut buffers.found[..count],
    )
}
