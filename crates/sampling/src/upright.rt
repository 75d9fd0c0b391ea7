// The grid turned upright. A row of the upright grid is a line of the sampled one, walked in equal steps forward or backward, so that no
// module costs a test or a division.
ghost use Rattle.std.specs.Prelude.{◌≡◌, ℕ, ◌+◌, ◌*◌, ◌≤◌, ◌<◌, length};
ghost use Rattle.list_laws.specs.Writes.{writes};
ghost use Rattle.symbol.specs.GridWords.{module_at};
ghost use Rattle.sampling.specs.Lines.{Along};

use symbol::places;
use symbol::shapes::Position;

// Column c stands at start + c * ahead - c * back.
#[derive(Clone, Copy)]
pub struct Line {
    pub start: usize,
    pub ahead: usize,
    pub back: usize,
}

// Where a row of the upright grid stands in a position.
fn line_of(n: usize, position: Position, row: usize) -> Line
    requires { (n ≤ 151) × (row < n) }
    ensures { Along n position.number row result }
{
    let first = places::turned_cell(position, n, row, 0);
    let start = first.row * n + first.col;
    match position.number {
        0 | 6 => Line {
            start,
            ahead: 1,
            back: 0,
        },
        1 | 7 => Line {
            start,
            ahead: n,
            back: 0,
        },
        2 | 4 => Line {
            start,
            ahead: 0,
            back: 1,
        },
        _ => Line {
            start,
            ahead: 0,
            back: n,
        },
    }
}

fn turn_row(n: usize, position: Position, row: usize, grid: &[u8], upright: &mut [u8])
    requires { (n ≤ 151) × (row < n) × (n * n ≡ length grid.now) × (n * n ≤ length upright.old) }
    ensures { upright.new ≡ writes upright.old (λ (c : ℕ). row * n + c)
        (λ (c : ℕ). module_at n position.number grid.now (row * n + c)) n }
{
    let line = line_of(n, position, row);
    let first = row * n;
    for c in 0..n {
        let at = line.start + c * line.ahead - c * line.back;
        upright[first + c] = grid[at];
    }
}

// The first n * n modules are the upright grid's, row by row.
pub fn turn_upright(n: usize, position: Position, grid: &[u8], upright: &mut [u8])
    requires { (n ≤ 151) × (n * n ≡ length grid.now) × (n * n ≤ length upright.old) }
    ensures { upright.new ≡ writes upright.old (λ (k : ℕ). k)
        (module_at n position.number grid.now) (n * n) }
{
    for row in 0..n {
        turn_row(n, position, row, grid, upright);
    }
}
