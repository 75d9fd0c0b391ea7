// Words from an upright grid, through the corrector. Of it only the nearest block is known.
ghost use Rattle.std.specs.Prelude.{◌≡◌, ◌*◌, ◌+◌, ◌-◌, ◌≤◌, ◌<◌, length};
ghost use Rattle.finite_field.specs.Field.{size_of};
ghost use Rattle.block_code.specs.Nearest.{nearest};
ghost use Rattle.symbol.specs.Shapes.{word_size, words};
ghost use Rattle.symbol.specs.Places.{mode_run};
ghost use Rattle.symbol.specs.Drawing.{area};
ghost use Rattle.sampling.specs.Sampled.{mode_words_of, mode_marks_of, block_words_of, block_marks_of};
ghost use Rattle.sampling.specs.Flat.{flat_marked};
ghost use Rattle.encoder.specs.ModeMessage.{mode_checks};
ghost use Rattle.recovery.specs.Correcting.{Corrected};

use sampling::{blocks, flat};
use symbol::places;
use symbol::shapes::{Frame, Shape};

#[tactic(auto, unfolding(encoder::specs::ModeMessage::mode_checks))]
fn mode_checks_of(full: bool) -> usize
    ensures { result ≡ mode_checks full }
{
    if full { 6 } else { 5 }
}

// The mode words, with room for exactly what is read.
fn correct_mode_with(
    received: &mut [u16],
    marks: &mut [u8],
    frame: Frame,
    upright: &[u8],
    corrected: &mut [u16],
) -> bool
    requires upright_len { frame.side * frame.side ≤ length upright.now }
    requires received_len { (length received.old ≡ mode_run frame.full) × (length marks.old ≡ mode_run frame.full) × (length corrected.old ≡ mode_run frame.full) }
    ensures { Corrected result corrected.new
        (nearest (size_of 4) (mode_checks frame.full) (mode_checks frame.full) (mode_words_of frame.full frame.side upright.now)
        (mode_marks_of frame.full frame.side upright.now)) }
{
    blocks::read_mode(frame, upright, received, marks);
    reed_solomon::correct(4, mode_checks_of(frame.full), received, marks, corrected) == 0
}

// The mode words of an upright grid; whether there are any within the limit.
pub fn correct_mode(frame: Frame, upright: &[u8], corrected: &mut [u16]) -> bool
    requires { (frame.side * frame.side ≤ length upright.now) × (length corrected.old ≡ mode_run frame.full) }
    ensures { Corrected result corrected.new
        (nearest (size_of 4) (mode_checks frame.full) (mode_checks frame.full) (mode_words_of frame.full frame.side upright.now)
        (mode_marks_of frame.full frame.side upright.now)) }
{
    let mut received = [0u16; 10];
    let mut marks = [0u8; 10];
    let run = places::mode_run_of(frame.full);
    correct_mode_with(
        &mut received[..run],
        &mut marks[..run],
        frame,
        upright,
        corrected,
    )
}

// The block of an upright grid, with the words, the unread marks and the corrector's marks that it was found by; whether there is one within
// the limit.
pub fn correct_block(
    received: &mut [u16],
    unread: &mut [u8],
    marks: &mut [u8],
    shape: Shape,
    data_words: usize,
    upright: &[u8],
    found: &mut [u16],
) -> bool
    requires upright_len { (area shape.full shape.layers ≤ length upright.now) × (1 ≤ data_words) × (data_words + 3 ≤ words shape.full shape.layers) }
    requires received_len { (length received.old ≡ words shape.full shape.layers) × (length unread.old ≡ words shape.full shape.layers) }
    requires marks_len { (length marks.old ≡ words shape.full shape.layers) × (length found.old ≡ words shape.full shape.layers) }
    ensures received_after { received.new ≡ block_words_of shape.full shape.layers upright.now }
    ensures unread_after { unread.new ≡ block_marks_of shape.full shape.layers upright.now }
    ensures marks_after { marks.new ≡ flat_marked (word_size shape.layers) data_words (block_words_of shape.full shape.layers upright.now)
        (block_marks_of shape.full shape.layers upright.now) }
    ensures corrected { Corrected result found.new
        (nearest (size_of (word_size shape.layers)) (words shape.full shape.layers - data_words) (words shape.full shape.layers - data_words)
        (block_words_of shape.full shape.layers upright.now)
        (flat_marked (word_size shape.layers) data_words (block_words_of shape.full shape.layers upright.now)
        (block_marks_of shape.full shape.layers upright.now))) }
{
    let size = shape.word_size();
    blocks::read_block(shape, upright, received, unread);
    marks.copy_from_slice(unread);
    flat::mark_flat(size, data_words, received, marks);
    let checks = received.len() - data_words;
    reed_solomon::correct(size as u32, checks, received, marks, found) == 0
}
