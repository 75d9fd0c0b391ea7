// Where the reading of a bitmap or of a text grid stands, and what a byte does there. A side is a byte: at most 255 modules.
ghost use Rattle.std.specs.Prelude.{◌≡◌};
ghost use Rattle.grid_text.specs.Scanning.{step, shown};

use crate::kinds::Kind;
use crate::{bitmap, rows};

#[derive(Clone, Copy)]
pub enum Scan {
    // A bitmap, before its width, or after that, before its height.
    Gap { side: Option<u8> },
    Comment { side: Option<u8> },
    // In the width, or after that, in the height: its value so far.
    Number { side: Option<u8>, value: u8 },
    // Among a bitmap's modules.
    Raster { side: u8 },
    // In a row of a text grid, after some of its modules; the first row gives the side.
    Rows { side: Option<u8>, column: u8 },
    Bad,
}

// From one byte to the next.
#[tactic(auto, unfolding(crate::specs::Scanning::step))]
pub fn step(scan: Scan, kind: Kind) -> Scan
    ensures { result ≡ step scan kind }
{
    match scan {
        Scan::Gap { side } => bitmap::in_gap(side, kind),
        Scan::Comment { side } => bitmap::in_comment(side, kind),
        Scan::Number { side, value } => bitmap::in_number(side, value, kind),
        Scan::Raster { side } => bitmap::in_raster(side, kind),
        Scan::Rows { side, column } => rows::in_rows(side, column, kind),
        Scan::Bad => Scan::Bad,
    }
}

// The module that a byte is, if it is one.
#[tactic(auto, unfolding(crate::specs::Scanning::shown))]
pub fn module_of(scan: Scan, kind: Kind) -> Option<u8>
    ensures { result ≡ shown scan kind }
{
    match scan {
        Scan::Raster { .. } => bitmap::raster_module_of(kind),
        Scan::Rows { .. } => rows::row_module_of(kind),
        _ => None,
    }
}
