// Tables of places: of the orientation modules, the mode message and the data bits, in the order of their bits. Geometry is walked once,
// here; drawing and reading go through the table.
ghost use Rattle.std.specs.Prelude.{◌≡◌, ℕ, ◌+◌, ◌*◌, ◌≤◌, ◌<◌, length};
ghost use Rattle.list_laws.specs.Writes.{writes};
ghost use Rattle.symbol.specs.Shapes.{bits, core};
ghost use Rattle.symbol.specs.Places.{turned, domino, shifted, spread, data_place, core_place, orientation_place, mode_run, mode_column, mode_place};
ghost use Rattle.symbol.specs.Walk.{Lined, InTable, table_place, run, within, Ready};

use crate::shapes::{self, Frame, Position, Shape};

// A row and a column.
#[derive(Clone, Copy)]
pub struct Cell {
    pub row: usize,
    pub col: usize,
}

// Where a cell of a square of side n stands in a position.
#[tactic(auto, unfolding(crate::specs::Places::turned))]
pub fn turned_cell(position: Position, n: usize, row: usize, col: usize) -> Cell
    requires { (row < n) × (col < n) }
    ensures { (result.row ≡ (turned position.number n row col).0) × (result.col ≡ (turned position.number n row col).1) }
{
    let below = n - 1 - row;
    let right = n - 1 - col;
    match position.number {
        0 => Cell { row, col },
        1 => Cell {
            row: col,
            col: below,
        },
        2 => Cell {
            row: below,
            col: right,
        },
        3 => Cell {
            row: right,
            col: row,
        },
        4 => Cell { row, col: right },
        5 => Cell {
            row: right,
            col: below,
        },
        6 => Cell { row: below, col },
        _ => Cell { row: col, col: row },
    }
}

// The place of a cell of the core square, after some quarter turns of that square.
pub fn core_place(frame: Frame, turns: usize, row: usize, col: usize) -> u16
    requires { (turns < 4) × (row ≤ 2 * core frame.full) × (col ≤ 2 * core frame.full) }
    ensures place { result ≡ core_place frame.full frame.side (turned turns (2 * core frame.full + 1) row col) }
    ensures inside { result < frame.side * frame.side }
{
    let core = shapes::core_of(frame.full);
    let turned = Position { number: turns };
    let x = turned_cell(turned, 2 * core + 1, row, col);
    let edge = frame.side / 2 - core;
    ((edge + x.row) * frame.side + (edge + x.col)) as u16
}

// The twelve orientation modules, clockwise from the one below the top left corner: 111 011 100 000.
pub const ORIENTATION: [u16; 12] = [1, 1, 1, 0, 1, 1, 1, 0, 0, 0, 0, 0];

// The places of the twelve orientation modules.
pub fn orientation_places(frame: Frame, places: &mut [u16])
    requires { 12 ≤ length places.old }
    ensures { places.new ≡ writes places.old (λ (k : ℕ). k) (orientation_place frame.full frame.side) 12 }
{
    for k in 0..12 {
        let m = k % 3;
        places[k] = core_place(frame, k / 3, (3 - m) / 3, m / 2);
    }
}

// The number of mode bits on one side.
#[tactic(auto, unfolding(crate::specs::Places::mode_run))]
pub fn mode_run_of(full: bool) -> usize
    ensures { result ≡ mode_run full }
{
    if full { 10 } else { 7 }
}

// The column of mode bit j on the upper side, from the core square's corner.
#[tactic(auto, unfolding(crate::specs::Places::mode_run, crate::specs::Places::mode_column, crate::specs::Shapes::core))]
fn mode_column(full: bool, j: usize) -> usize
    requires { j < mode_run full }
    ensures { (result ≡ mode_column full j) × (result ≤ 2 * core full) }
{
    if full { 2 + j + j / 5 } else { 2 + j }
}

// The places of the mode message's bits on one side of the core ring: `run` bits, side s clockwise from the upper.
fn mode_side(frame: Frame, run: usize, s: usize, places: &mut [u16])
    requires { (s < 4) × (run ≡ mode_run frame.full) × (4 * mode_run frame.full ≤ length places.old) }
    ensures { places.new ≡ writes places.old (λ (j : ℕ). s * run + j)
        (λ (j : ℕ). mode_place frame.full frame.side (s * run + j)) run }
{
    for j in 0..run {
        places[s * run + j] = core_place(frame, s, 0, mode_column(frame.full, j));
    }
}

// The places of the mode message's bits.
pub fn mode_places(frame: Frame, places: &mut [u16])
    requires { 4 * mode_run frame.full ≤ length places.old }
    ensures { places.new ≡ writes places.old (λ (k : ℕ). k) (mode_place frame.full frame.side) (4 * mode_run frame.full) }
{
    let run = mode_run_of(frame.full);
    for s in 0..4 {
        mode_side(frame, run, s, places);
    }
}

// A row or column of the square without reference lines, among all.
#[tactic(auto, unfolding(crate::specs::Places::spread, crate::specs::Shapes::most_layers))]
fn spread_of(shape: Shape, a: usize) -> usize
    requires { a < 1000 }
    ensures { result ≡ spread shape.full shape.layers a }
{
    let layers = shape.layers;
    if shape.full {
        return a + (6 + 2 * layers) / 15 + (a + 68 - 2 * layers) / 15 - 4;
    }
    a
}

// The same for every row or column, of which the largest square has 142: a table, so that no bit costs a division.
fn spread_lines(shape: Shape) -> [u16; 142]
    ensures { Lined shape.full shape.layers result }
{
    let mut lines = [0u16; 142];
    for a in 0..shape.square() {
        lines[a] = spread_of(shape, a) as u16;
    }
    lines
}

// Bit b of domino j on side s of the outermost layer of a square: left, bottom, right, top.
#[tactic(auto, unfolding(crate::specs::Places::domino))]
fn domino_cell(s: usize, square: usize, j: usize, b: usize) -> Cell
    requires { (j < square) × (b < 2) × (2 ≤ square) × (s < 4) }
    ensures { (result.row ≡ (domino s square j b).0) × (result.col ≡ (domino s square j b).1) }
{
    let last = square - 1;
    match s {
        0 => Cell { row: j, col: b },
        1 => Cell {
            row: last - b,
            col: j,
        },
        2 => Cell {
            row: last - j,
            col: last - b,
        },
        _ => Cell {
            row: b,
            col: last - j,
        },
    }
}

// The layers of data bits, walked inward: `left` of them are to come, in a square that has `outer` rows and columns before it; the next
// bit is `first`.
#[derive(Clone, Copy)]
pub struct Layer {
    pub left: usize,
    pub square: usize,
    pub outer: usize,
    pub first: usize,
}

// The layer inside of this one.
fn inward(layer: Layer) -> Layer
    requires { (0 < layer.left) × (4 ≤ layer.square) × (layer.square + 2 * layer.outer ≤ 142) × (layer.first ≤ 19968) }
    ensures { result ≡ within layer }
{
    Layer {
        left: layer.left - 1,
        square: layer.square - 4,
        outer: layer.outer + 2,
        first: layer.first + 8 * (layer.square - 2),
    }
}

// The place of bit b of domino j on side s of a layer, in a symbol of side n.
fn bit_place(lines: &[u16; 142], n: usize, layer: Layer, s: usize, j: usize, b: usize) -> u16
    requires j_lt_square { (j < layer.square) × (b < 2) × (2 ≤ layer.square) × (s < 4) }
    requires in_table { InTable lines.now n (shifted layer.outer (domino s layer.square j b)) }
    ensures { result ≡ table_place lines.now n (shifted layer.outer (domino s layer.square j b)) }
{
    let x = domino_cell(s, layer.square, j, b);
    let row = layer.outer + x.row;
    let col = layer.outer + x.col;
    (lines[row] as usize * n + lines[col] as usize) as u16
}

// The places of the bits on side s of a layer, by dominoes, whose two bits share a line.
fn side_places(shape: Shape, lines: &[u16; 142], layer: Layer, s: usize, places: &mut [u16])
    requires { Ready shape.full shape.layers lines.now layer (length places.old) × (s < 4) }
    ensures { places.new ≡ writes places.old (λ (m : ℕ). layer.first + (s * run layer + m))
        (λ (m : ℕ). data_place shape.full shape.layers (layer.first + (s * run layer + m))) (run layer) }
{
    let n = shape.side();
    let dominoes = layer.square - 2;
    let start = layer.first + s * (2 * dominoes);
    for j in 0..dominoes {
        let at = start + 2 * j;
        places[at] = bit_place(lines, n, layer, s, j, 0);
        places[at + 1] = bit_place(lines, n, layer, s, j, 1);
    }
}

// The places of a layer's bits, side by side.
fn layer_places(shape: Shape, lines: &[u16; 142], layer: Layer, places: &mut [u16])
    requires { Ready shape.full shape.layers lines.now layer (length places.old) }
    ensures { places.new ≡ writes places.old (λ (m : ℕ). layer.first + m)
        (λ (m : ℕ). data_place shape.full shape.layers (layer.first + m)) (4 * run layer) }
{
    for s in 0..4 {
        side_places(shape, lines, layer, s, places);
    }
}

// The places of all data bits, from the outermost layer inward.
pub fn data_places(shape: Shape, places: &mut [u16])
    requires { bits shape.full shape.layers ≤ length places.old }
    ensures { places.new ≡ writes places.old (λ (i : ℕ). i) (data_place shape.full shape.layers) (bits shape.full shape.layers) }
{
    let lines = spread_lines(shape);
    let mut layer = Layer {
        left: shape.layers,
        square: shape.square(),
        outer: 0,
        first: 0,
    };
    while 0 < layer.left {
        layer_places(shape, &lines, layer, places);
        layer = inward(layer);
    }
}
