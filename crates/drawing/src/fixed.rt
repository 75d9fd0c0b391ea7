// The fixed pattern: target and reference grid, light elsewhere.
ghost use Rattle.std.specs.Prelude.{◌≡◌, ℕ, ◌+◌, ◌*◌, ◌≤◌, ◌<◌, length};
ghost use Rattle.list_laws.specs.Writes.{writes};
ghost use Rattle.symbol.specs.Shapes.{side};
ghost use Rattle.symbol.specs.Places.{fixed_at, fixed_place};
ghost use Rattle.symbol.specs.Drawing.{area, with_fixed};

use symbol::shapes::{self, Shape};

// The module at distances x and y from the centre: dark, 1, on even rings of the target and at even places of a reference line.
#[tactic(auto, unfolding(symbol::specs::Places::fixed_at, symbol::specs::Places::target, symbol::specs::Places::reference))]
fn fixed_at(full: bool, x: usize, y: usize) -> u8
    requires { (x < 1000) × (y < 1000) }
    ensures { result ≡ fixed_at full x y }
{
    let distance = y.max(x);
    if distance < shapes::core_of(full) {
        return ((distance + 1) % 2) as u8;
    }
    if full {
        if x % 16 == 0 || y % 16 == 0 {
            return ((x + y + 1) % 2) as u8;
        }
    }
    0
}

// One row of the pattern.
fn draw_row(shape: Shape, row: usize, grid: &mut [u8])
    requires { (row < side shape.full shape.layers) × (area shape.full shape.layers ≤ length grid.old) }
    ensures { grid.new ≡ writes grid.old (λ (c : ℕ). row * side shape.full shape.layers + c)
        (λ (c : ℕ). fixed_place shape.full shape.layers (row * side shape.full shape.layers + c)) (side shape.full shape.layers) }
{
    let n = shape.side();
    let y = row.abs_diff(n / 2);
    let start = row * n;
    for c in 0..n {
        grid[start + c] = fixed_at(shape.full, c.abs_diff(n / 2), y);
    }
}

// The whole pattern.
pub fn draw_fixed(shape: Shape, grid: &mut [u8])
    requires { area shape.full shape.layers ≤ length grid.old }
    ensures { grid.new ≡ with_fixed shape.full shape.layers grid.old }
{
    for row in 0..shape.side() {
        draw_row(shape, row, grid);
    }
}
