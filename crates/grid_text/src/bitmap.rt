// A plain portable bitmap: what a byte does in its header and among its modules.
ghost use Rattle.std.specs.Prelude.{◌≡◌};
ghost use Rattle.grid_text.specs.Scanning.{gap, comment, raster, ended, number, raster_module};

use crate::kinds::Kind;
use crate::scanning::Scan;

// Before the width or the height.
pub fn in_gap(side: Option<u8>, kind: Kind) -> Scan
    ensures { result ≡ gap side kind }
{
    match kind {
        Kind::Line | Kind::Blank => Scan::Gap { side },
        Kind::Digit(value) => Scan::Number { side, value },
        Kind::Hash => Scan::Comment { side },
        Kind::Unread | Kind::Other => Scan::Bad,
    }
}

// A comment goes to the end of its line.
pub fn in_comment(side: Option<u8>, kind: Kind) -> Scan
    ensures { result ≡ comment side kind }
{
    match kind {
        Kind::Line => Scan::Gap { side },
        _ => Scan::Comment { side },
    }
}

// Modules 0 and 1, and white space between them.
pub fn in_raster(side: u8, kind: Kind) -> Scan
    ensures { result ≡ raster side kind }
{
    match kind {
        Kind::Line | Kind::Blank | Kind::Digit(0..=1) => Scan::Raster { side },
        Kind::Digit(_) | Kind::Unread | Kind::Hash | Kind::Other => Scan::Bad,
    }
}

// A number has ended before this byte: the width, or the height, which must be the same.
fn after_number(side: Option<u8>, value: u8, kind: Kind) -> Scan
    ensures { result ≡ ended side value kind }
{
    if value == 0 {
        return Scan::Bad;
    }
    match side {
        None => in_gap(Some(value), kind),
        Some(width) if width == value => in_raster(width, kind),
        Some(_) => Scan::Bad,
    }
}

// A digit more, or what comes after the number.
pub fn in_number(side: Option<u8>, value: u8, kind: Kind) -> Scan
    ensures { result ≡ number side value kind }
{
    let Kind::Digit(digit) = kind else {
        return after_number(side, value, kind);
    };
    match u8::try_from(10 * u32::from(value) + u32::from(digit)) {
        Ok(value) => Scan::Number { side, value },
        Err(_) => Scan::Bad,
    }
}

// The module that a byte is, if it is one.
pub fn raster_module_of(kind: Kind) -> Option<u8>
    ensures { result ≡ raster_module kind }
{
    match kind {
        Kind::Digit(digit) if digit <= 1 => Some(digit),
        _ => None,
    }
}
