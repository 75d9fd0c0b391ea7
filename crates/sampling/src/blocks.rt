// The two runs of words that a grid has: the mode message's, and the block's.
ghost use Rattle.std.specs.Prelude.{◌≡◌, ◌*◌, ◌≤◌, length};
ghost use Rattle.symbol.specs.Shapes.{bits, words};
ghost use Rattle.symbol.specs.Places.{mode_run};
ghost use Rattle.symbol.specs.Drawing.{area};
ghost use Rattle.sampling.specs.Sampled.{mode_words_of, mode_marks_of, block_words_of, block_marks_of};

use crate::words;
use symbol::places;
use symbol::shapes::{Frame, Shape};

// The mode words of an upright grid.
pub fn read_mode(frame: Frame, upright: &[u8], mode_words: &mut [u16], marks: &mut [u8])
    requires upright_len { frame.side * frame.side ≤ length upright.now }
    requires mode_words_len { (length mode_words.old ≡ mode_run frame.full) × (length marks.old ≡ mode_run frame.full) }
    ensures mode_words_after { mode_words.new ≡ mode_words_of frame.full frame.side upright.now }
    ensures marks_after { marks.new ≡ mode_marks_of frame.full frame.side upright.now }
{
    let mut at = [0u16; 40];
    places::mode_places(frame, &mut at);
    words::read_words(4, 0, &at, upright, mode_words, marks);
}

// The block's words, with a table for their places that has room for so many bits.
fn read_within<const ROOM: usize>(shape: Shape, upright: &[u8], block: &mut [u16], marks: &mut [u8])
    requires upright_len { (area shape.full shape.layers ≤ length upright.now) × (bits shape.full shape.layers ≤ ROOM) × (ROOM ≤ 19968) }
    requires block_len { (length block.old ≡ words shape.full shape.layers) × (length marks.old ≡ words shape.full shape.layers) }
    ensures block_after { block.new ≡ block_words_of shape.full shape.layers upright.now }
    ensures marks_after { marks.new ≡ block_marks_of shape.full shape.layers upright.now }
{
    let mut at = [0u16; ROOM];
    places::data_places(shape, &mut at);
    words::read_words(
        shape.word_size(),
        shape.skipped(),
        &at,
        upright,
        block,
        marks,
    );
}

// The words of the block, data words and check words alike. A local array is cleared at each call, so a small symbol has a small table:
// four layers have at most 704 bits, all 32 have 19,968.
pub fn read_block(shape: Shape, upright: &[u8], block: &mut [u16], marks: &mut [u8])
    requires upright_len { area shape.full shape.layers ≤ length upright.now }
    requires block_len { (length block.old ≡ words shape.full shape.layers) × (length marks.old ≡ words shape.full shape.layers) }
    ensures block_after { block.new ≡ block_words_of shape.full shape.layers upright.now }
    ensures marks_after { marks.new ≡ block_marks_of shape.full shape.layers upright.now }
{
    if shape.layers <= 4 {
        read_within::<704>(shape, upright, block, marks);
        return;
    }
    read_within::<19968>(shape, upright, block, marks);
}
