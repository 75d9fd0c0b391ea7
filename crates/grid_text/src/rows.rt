// A text grid: what a byte does in its rows.
ghost use Rattle.std.specs.Prelude.{◌≡◌};
ghost use Rattle.grid_text.specs.Scanning.{more_modules, row_end, rows, row_module};

use crate::kinds::Kind;
use crate::scanning::Scan;

// One module more in a row.
fn row_module(side: Option<u8>, column: u8) -> Scan
    ensures { result ≡ more_modules side column }
{
    match column.checked_add(1) {
        Some(column) => Scan::Rows { side, column },
        None => Scan::Bad,
    }
}

// A row's end: a blank line is skipped, the first row gives the side, any other has to have as many modules.
fn row_end(side: Option<u8>, column: u8) -> Scan
    ensures { result ≡ row_end side column }
{
    if column == 0 {
        return Scan::Rows { side, column: 0 };
    }
    let Some(first) = side else {
        return Scan::Rows {
            side: Some(column),
            column: 0,
        };
    };
    if first != column {
        return Scan::Bad;
    }
    Scan::Rows { side, column: 0 }
}

// Modules 0, 1, 2 and ?, and blanks between them.
pub fn in_rows(side: Option<u8>, column: u8, kind: Kind) -> Scan
    ensures { result ≡ rows side column kind }
{
    match kind {
        Kind::Line => row_end(side, column),
        Kind::Blank => Scan::Rows { side, column },
        Kind::Digit(0..=2) | Kind::Unread => row_module(side, column),
        Kind::Digit(_) | Kind::Hash | Kind::Other => Scan::Bad,
    }
}

// The module that a byte is, if it is one.
pub fn row_module_of(kind: Kind) -> Option<u8>
    ensures { result ≡ row_module kind }
{
    match kind {
        Kind::Digit(digit) if digit <= 2 => Some(digit),
        Kind::Unread => Some(2),
        _ => None,
    }
}
