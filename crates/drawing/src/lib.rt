// A symbol drawn (document 01, "Modules and shapes"): the fixed pattern, and over it the orientation modules, the mode words and the block,
// each through a table of places.
#![tactic(auto)]

mod fixed;

ghost use Rattle.std.specs.Prelude.{◌≡◌, ℕ, ◌+◌, ◌*◌, ◌-◌, ◌≤◌, ◌<◌, length, get_or};
ghost use Rattle.list_laws.specs.Writes.{writes};
ghost use Rattle.symbol.specs.Shapes.{bits, words};
ghost use Rattle.symbol.specs.Places.{mode_run};
ghost use Rattle.symbol.specs.Drawing.{PlacesFit, bit_of, words_bit, area, with_orientation, with_mode, with_block, drawn};

use symbol::places::{self, ORIENTATION};
use symbol::shapes::Shape;

// The skipped bits are 0.
fn draw_zeros(places: &[u16], grid: &mut [u8])
    requires { PlacesFit places.now 0 (length places.now) (length grid.old) }
    ensures { grid.new ≡ writes grid.old (λ (i : ℕ). get_or places.now i 0) (λ (i : ℕ). 0) (length places.now) }
{
    for place in places {
        let at = *place as usize;
        grid[at] = 0;
    }
}

// The bits of a word at its places.
fn draw_word(word: u16, places: &[u16], grid: &mut [u8])
    requires fact_1 { length places.now ≤ 12 }
    requires fact_2 { PlacesFit places.now 0 (length places.now) (length grid.old) }
    ensures { grid.new ≡ writes grid.old
        (λ (b : ℕ). get_or places.now b 0) (bit_of (length places.now) word) (length places.now) }
{
    let size = places.len();
    for (b, place) in places.iter().enumerate() {
        let at = *place as usize;
        grid[at] = ((word >> (size - (b + 1))) % 2) as u8;
    }
}

// Words at their places, after bits that are skipped.
pub fn draw_words(words: &[u16], size: usize, skip: usize, places: &[u16], grid: &mut [u8])
    requires le_size { (1 ≤ size) × (size ≤ 12) × (skip + length words.now * size ≤ length places.now) }
    requires places_fit { PlacesFit places.now 0 (skip + length words.now * size) (length grid.old) }
    ensures { grid.new ≡ writes grid.old (λ (i : ℕ). get_or places.now i 0)
        (words_bit size skip words.now) (skip + length words.now * size) }
{
    draw_zeros(&places[..skip], grid);
    for (w, word) in words.iter().enumerate() {
        let from = skip + w * size;
        draw_word(*word, &places[from..from + size], grid);
    }
}

fn draw_orientation(shape: Shape, grid: &mut [u8])
    requires { area shape.full shape.layers ≤ length grid.old }
    ensures { grid.new ≡ with_orientation shape.full shape.layers grid.old }
{
    let mut at = [0u16; 12];
    places::orientation_places(shape.frame(), &mut at);
    draw_words(&ORIENTATION, 1, 0, &at, grid);
}

fn draw_mode(shape: Shape, mode_words: &[u16], grid: &mut [u8])
    requires { (area shape.full shape.layers ≤ length grid.old) × (length mode_words.now ≡ mode_run shape.full) }
    ensures { grid.new ≡ with_mode shape.full shape.layers mode_words.now grid.old }
{
    let mut at = [0u16; 40];
    places::mode_places(shape.frame(), &mut at);
    draw_words(mode_words, 4, 0, &at, grid);
}

// The block at its places, with a table for them that has room for so many bits.
fn draw_within<const ROOM: usize>(shape: Shape, block: &[u16], grid: &mut [u8])
    requires { (area shape.full shape.layers ≤ length grid.old) × (length block.now ≡ words shape.full shape.layers)
        × (bits shape.full shape.layers ≤ ROOM) × (ROOM ≤ 19968) }
    ensures { grid.new ≡ with_block shape.full shape.layers block.now grid.old }
{
    let mut at = [0u16; ROOM];
    places::data_places(shape, &mut at);
    draw_words(block, shape.word_size(), shape.skipped(), &at, grid);
}

// A local array is cleared at each call, so a small symbol has a small table: four layers have at most 704 bits, all 32 have 19,968.
fn draw_block(shape: Shape, block: &[u16], grid: &mut [u8])
    requires { (area shape.full shape.layers ≤ length grid.old) × (length block.now ≡ words shape.full shape.layers) }
    ensures { grid.new ≡ with_block shape.full shape.layers block.now grid.old }
{
    if shape.layers <= 4 {
        draw_within::<704>(shape, block, grid);
        return;
    }
    draw_within::<19968>(shape, block, grid);
}

// The symbol at the front of the buffer.
pub fn draw(shape: Shape, mode_words: &[u16], block: &[u16], grid: &mut [u8])
    requires area_fits { area shape.full shape.layers ≤ length grid.old }
    requires mode_words_len { (length mode_words.now ≡ mode_run shape.full) × (length block.now ≡ words shape.full shape.layers) }
    ensures { grid.new ≡ drawn shape.full shape.layers mode_words.now block.now grid.old }
{
    fixed::draw_fixed(shape, grid);
    draw_orientation(shape, grid);
    draw_mode(shape, mode_words, grid);
    draw_block(shape, block, grid);
}
