// Light rings around a tag: which they are, and the grid inside of them.
ghost use Rattle.std.specs.Prelude.{◌≡◌, ◌*◌, ◌<◌, ◌≤◌, length};
ghost use Rattle.grid_text.specs.Border.{module_at, inner_side, light_at, light_ring, copied};

fn module_at(grid: &[u8], side: usize, row: usize, column: usize) -> u8
    requires { (row < side) × (column < side) × (side * side ≤ length grid.now) }
    ensures { result ≡ module_at grid.now side row column }
{
    grid[row * side + column]
}

// The four modules of a ring in its row and its column k, counted from the ring's corner.
fn is_light_at(grid: &[u8], side: usize, ring: usize, k: usize) -> bool
    requires { (2 * ring < side) × (k < inner_side side ring) × (side * side ≤ length grid.now) }
    ensures { result ≡ light_at grid.now side ring k }
{
    let at = ring + k;
    let last = side - 1 - ring;
    module_at(grid, side, ring, at) == 0
        && module_at(grid, side, last, at) == 0
        && module_at(grid, side, at, ring) == 0
        && module_at(grid, side, at, last) == 0
}

// Whether a ring of the grid is light, all of it.
pub fn is_light_ring(grid: &[u8], side: usize, ring: usize) -> bool
    requires { (2 * ring < side) × (side * side ≤ length grid.now) }
    ensures { result ≡ light_ring grid.now side ring }
{
    (0..side - 2 * ring).all(|k| is_light_at(grid, side, ring, k))
}

// Copies the grid inside of some rings to the front of `inner`.
pub fn copy_inner(grid: &[u8], side: usize, rings: usize, inner: &mut [u8])
    requires { (2 * rings < side) × (side * side ≤ length grid.now) × (side * side ≤ length inner.old) }
    ensures { inner.new ≡ copied grid.now side rings inner.old }
{
    let width = side - 2 * rings;
    for k in 0..width * width {
        inner[k] = module_at(grid, side, rings + k / width, rings + k % width);
    }
}
