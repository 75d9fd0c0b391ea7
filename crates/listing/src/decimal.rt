// A number in decimal digits.
ghost use Rattle.std.specs.Prelude.{◌≡◌, ◌+◌, ◌≤◌, ◌++◌, length};
ghost use Rattle.listing.specs.Decimal.{decimal};

use text_line::Line;

// Puts the digits of n at the line's end.
pub fn push_number(n: usize, line: &mut Line<64>)
    requires { length line.old + length (decimal n) ≤ 64 }
    ensures put { line.new ≡ line.old ++ decimal n }
    ensures length { length line.new ≡ length line.old + length (decimal n) }
{
    if n < 10 {
        return line.push(b'0' + n as u8);
    }
    push_number(n / 10, line);
    line.push(b'0' + (n % 10) as u8);
}
