// Modules out of text: a plain portable bitmap, or rows of 0, 1, 2 and ?.
#![tactic(auto)]

pub mod bitmap;
pub mod border;
pub mod kinds;
pub mod rows;
pub mod scanning;

ghost use Rattle.std.specs.Prelude.{◌≡◌, ◌+◌, ◌<◌, ◌^◌, length, IfSome};
ghost use Rattle.std.proofs.lemmas.List.Edits.{sets};
ghost use Rattle.list_laws.specs.Putting.{Put};
ghost use Rattle.grid_text.specs.Grid.{one_module, modules, side_in, judged, side_from, side_of, modules_of};

use kinds::Kind;
use scanning::Scan;

// Stores a module at place `at`, if there is one and the grid has that place, and answers the place after it.
fn put_module(shown: Option<u8>, grid: &mut [u8], at: usize) -> usize
    requires { at + 1 < 2 ^ 64 }
    ensures { Put (one_module shown) grid.old at grid.new result }
{
    let Some(value) = shown else {
        return at;
    };
    if at < grid.len() {
        grid[at] = value;
    }
    at + 1
}

// The side that a bitmap's header, or the first row, gave.
#[tactic(auto, unfolding(crate::specs::Grid::side_in))]
fn side_of(scan: Scan) -> Option<u8>
    ensures { result ≡ side_in scan }
{
    match scan {
        Scan::Raster { side } => Some(side),
        Scan::Rows { side, column: _ } => side,
        _ => None,
    }
}

// The side, if there are side² modules and room for them.
#[tactic(auto, unfolding(crate::specs::Grid::judged))]
fn judge(side: u8, count: usize, room: usize) -> Option<u8>
    ensures { result ≡ judged side count room }
{
    let modules = usize::from(side) * usize::from(side);
    if modules == count && count <= room {
        return Some(side);
    }
    None
}

// One byte after the other, from where the reading starts.
fn read_from(first: Scan, bytes: &[u8], grid: &mut [u8]) -> Option<u8>
    ensures value { result ≡ side_from first bytes.now (length grid.old) }
    ensures grid_after { grid.new ≡ sets grid.old 0 (modules first bytes.now) }
{
    let mut scan = first;
    let mut at = 0;
    for byte in bytes {
        let kind = Kind::from(*byte);
        at = put_module(scanning::module_of(scan, kind), grid, at);
        scan = scanning::step(scan, kind);
    }
    let side = side_of(scanning::step(scan, Kind::Line))?;
    judge(side, at, grid.len())
}

// The side of the grid that the bytes say, if they say one and there is room for its modules. The modules met, as many as have room, stand at
// the front of the grid then, for bytes that are refused too; the rest is as it was.
pub fn read_grid(bytes: &[u8], grid: &mut [u8]) -> Option<u8>
    ensures value { result ≡ side_of bytes.now (length grid.old) }
    ensures positive { IfSome result (λ side. 0 < side) }
    ensures grid_after { grid.new ≡ sets grid.old 0 (modules_of bytes.now) }
{
    match bytes.strip_prefix(b"P1") {
        Some(rest) => read_from(Scan::Gap { side: None }, rest, grid),
        None => read_from(
            Scan::Rows {
                side: None,
                column: 0,
            },
            bytes,
            grid,
        ),
    }
}
