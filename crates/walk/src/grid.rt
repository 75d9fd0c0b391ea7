// From a sampled grid to what it tells: side, length and modules, family, position, and the grid turned upright.
ghost use Rattle.std.specs.Prelude.{◌≡◌, ◌*◌, ◌≤◌, length};
ghost use Rattle.std.proofs.Math.Option.{some};
ghost use Rattle.walk.specs.Walk.{place_walk, grid_walk, walk_of};
ghost use Rattle.walk.specs.Told.{Walked};

use crate::{Buffers, Refusal, Told, block};
use orientation::{family, modules, position, sides};
use sampling::upright as turning;
use symbol::shapes::{Frame, Position};

// The grid in a known family and position, which is turned upright.
fn walk_oriented(
    frame: Frame,
    position: Position,
    grid: &[u8],
    buffers: &mut Buffers,
) -> Result<Told, Refusal>
    requires { frame.side * frame.side ≡ length grid.now }
    ensures { Walked (place_walk grid.now frame.full frame.side (some position.number)) buffers.old result buffers.new }
{
    let mut upright = [0u8; 22801];
    turning::turn_upright(frame.side, position, grid, &mut upright);
    block::walk_upright(frame, position.number, &upright, buffers)
}

// The family, the position if there is a single best, and what is read in it.
fn walk_grid(n: usize, grid: &[u8], buffers: &mut Buffers) -> Result<Told, Refusal>
    requires { (15 ≤ n) × (n ≤ 151) × (n * n ≡ length grid.now) }
    ensures { Walked (grid_walk grid.now n) buffers.old result buffers.new }
{
    let full = family::looks_full(n, grid);
    let frame = Frame { full, side: n };
    let number = position::placement_of(frame, grid)?;
    walk_oriented(frame, Position::numbered(number), grid, buffers)
}

// The whole walk.
pub fn walk(n: usize, grid: &[u8], buffers: &mut Buffers) -> Result<Told, Refusal>
    ensures { Walked (walk_of grid.now n) buffers.old result buffers.new }
{
    if !sides::is_side(n) {
        return Err(Refusal::Side);
    }
    if grid.len() != n * n {
        return Err(Refusal::Length);
    }
    if !modules::all_lawful(grid) {
        return Err(Refusal::Module);
    }
    walk_grid(n, grid, buffers)
}
