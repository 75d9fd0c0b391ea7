// The symbol of a message in its shape: data words, check words, mode words, and all drawn.
ghost use Rattle.std.specs.Prelude.{◌≡◌, ◌≤◌, length};
ghost use Rattle.symbol.specs.Shapes.{words as words_in};
ghost use Rattle.symbol.specs.Places.{mode_run};
ghost use Rattle.symbol.specs.Drawing.{area};
ghost use Rattle.encoder.specs.Encode.{block, drawn_message};
ghost use Rattle.encoder.specs.Fitting.{Fitting};

use crate::mode;
use stream_writer::encoding;
use symbol::places;
use symbol::shapes::Shape;

// The message's words are written in place, and the block goes to check_words, which lends its tail to its writer.
fn fill_block(message: &[u8], shape: Shape, data_words: usize, words: &mut [u16])
    requires fact_1 { Fitting message.now shape.full shape.layers data_words }
    requires fact_2 { length words.old ≡ words_in shape.full shape.layers }
    ensures { words.new ≡ block message.now shape.full shape.layers }
{
    let size = shape.word_size();
    encoding::write_words(message, size, words);
    check_words::fill_check_words(size as u32, data_words, words);
}

// The symbol, with room for exactly the block and the mode words.
fn draw_with(
    words: &mut [u16],
    mode_words: &mut [u16],
    message: &[u8],
    shape: Shape,
    data_words: usize,
    grid: &mut [u8],
)
    requires fitting_1 { Fitting message.now shape.full shape.layers data_words }
    requires fitting_2 { area shape.full shape.layers ≤ length grid.old }
    requires words_len { (length words.old ≡ words_in shape.full shape.layers) × (length mode_words.old ≡ mode_run shape.full) }
    ensures { grid.new ≡ drawn_message message.now shape.full shape.layers grid.old }
{
    fill_block(message, shape, data_words, words);
    mode::fill_mode_words(shape, data_words, mode_words);
    drawing::draw(shape, mode_words, words, grid);
}

// The symbol, with room for the words of any shape.
fn draw_in(
    words: &mut [u16],
    mode_words: &mut [u16],
    message: &[u8],
    shape: Shape,
    data_words: usize,
    grid: &mut [u8],
)
    requires fitting_1 { Fitting message.now shape.full shape.layers data_words }
    requires fitting_2 { area shape.full shape.layers ≤ length grid.old }
    requires in_bounds { (1664 ≤ length words.old) × (10 ≤ length mode_words.old) }
    ensures { grid.new ≡ drawn_message message.now shape.full shape.layers grid.old }
{
    let n = shape.words();
    let run = places::mode_run_of(shape.full);
    draw_with(
        &mut words[..n],
        &mut mode_words[..run],
        message,
        shape,
        data_words,
        grid,
    );
}

// The modules of the message's symbol, at the front of the buffer.
pub fn draw_message(message: &[u8], shape: Shape, data_words: usize, grid: &mut [u8])
    requires { (Fitting message.now shape.full shape.layers data_words) × (area shape.full shape.layers ≤ length grid.old) }
    ensures { grid.new ≡ drawn_message message.now shape.full shape.layers grid.old }
{
    let mut words = [0u16; 1664];
    let mut mode_words = [0u16; 10];
    draw_in(
        &mut words,
        &mut mode_words,
        message,
        shape,
        data_words,
        grid,
    );
}
