// The family of a sampled grid.
ghost use Rattle.std.specs.Prelude.{◌≡◌, ◌*◌, ◌≤◌, ◌<◌, length};
ghost use Rattle.orientation.specs.Family.{dark_ring, looks_full};

use symbol::places;
use symbol::shapes::Frame;

// How many of the 40 modules at distance 5, the core ring of a compact symbol, are dark.
fn dark_ring(n: usize, grid: &[u8]) -> usize
    requires { (10 < n) × (n ≤ 151) × (n * n ≤ length grid.now) }
    ensures { result ≡ dark_ring n grid.now }
{
    let compact = Frame {
        full: false,
        side: n,
    };
    let mut dark = 0;
    for k in 0..40 {
        let at = places::core_place(compact, k / 10, 0, k % 10) as usize;
        if grid[at] == 1 {
            dark += 1;
        }
    }
    dark
}

// Side 15 is compact, above 27 full; between, four dark modules of the 40 make it compact.
pub fn looks_full(n: usize, grid: &[u8]) -> bool
    requires { (10 < n) × (n * n ≤ length grid.now) }
    ensures { result ≡ looks_full n grid.now }
{
    if n == 15 {
        return false;
    }
    if 27 < n {
        return true;
    }
    dark_ring(n, grid) < 4
}
