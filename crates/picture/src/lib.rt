// A symbol as a picture: its modules inside a light border, line by line, as a drawing for the terminal or as a portable bitmap.
#![tactic(auto)]

ghost use Rattle.std.specs.Prelude.{◌≡◌, ℕ, ◌+◌, ◌*◌, ◌≤◌, ◌++◌, length};
ghost use Rattle.picture.specs.Picture.{inside, dark, digit_of, extent, glyph, upper, joined, two_rows, pbm_row, pair_line, half_line, terminal_line};
ghost use Rattle.list_laws.specs.Putting.{at_front};

use text_line::Line;

// The standard asks for no margin; this one keeps the symbol apart from a dark terminal.
pub const BORDER: usize = 2;

// No line of a picture is longer: 155 characters of 3 bytes, 12 bytes of colours and the line feed.
pub const LINE: usize = 512;

// A symbol's modules, row by row: side rows of side modules, at most 151.
#[derive(Clone, Copy)]
pub struct Square<'a> {
    pub grid: &'a [u8],
    pub side: usize,
    ghost fits: { (side ≤ 151) × (side * side ≤ length grid.now) },
}

// Whether a row or a column of the picture is one of the symbol's.
fn is_inside(side: usize, k: usize) -> bool
    ensures { result ≡ inside side k }
{
    BORDER <= k && k - BORDER < side
}

// Whether the picture is dark at a row and a column.
#[tactic(auto, unfolding(crate::specs::Picture::dark))]
fn is_dark(square: &Square, row: usize, column: usize) -> bool
    ensures { result ≡ dark square.now.grid.now square.now.side row column }
{
    is_inside(square.side, row)
        && is_inside(square.side, column)
        && square.grid[(row - BORDER) * square.side + (column - BORDER)] == 1
}

// A character that shows two modules, one above the other: its bytes.
#[tactic(auto, unfolding(crate::specs::Picture::glyph))]
fn glyph(top: bool, bottom: bool) -> &'static [u8]
    ensures value { result.now ≡ glyph top bottom }
    ensures upper_bound { length result.now ≤ 3 }
{
    match (top, bottom) {
        (true, true) => b"\xe2\x96\x88",
        (true, false) => b"\xe2\x96\x80",
        (false, true) => b"\xe2\x96\x84",
        (false, false) => b" ",
    }
}

// PBM's digit for a module.
fn digit(dark: bool) -> u8
    ensures { result ≡ digit_of dark }
{
    if dark { b'1' } else { b'0' }
}

// A row of the bitmap at the front of `line`; answers its length.
pub fn pbm_row(square: &Square, row: usize, line: &mut [u8]) -> usize
    requires { 512 ≤ length line.old }
    ensures value { result ≡ length (pbm_row square.now.grid.now square.now.side row) }
    ensures line_after { line.new ≡ at_front (pbm_row square.now.grid.now square.now.side row) line.old }
    ensures upper_bound { result ≤ 512 }
{
    let mut text = Line::<LINE>::new();
    for column in 0..square.side + 2 * BORDER {
        text.push(digit(is_dark(square, row, column)));
    }
    text.push(b'\n');
    text.put_front(line)
}

// Puts a character for each column of two rows.
fn push_rows(square: &Square, row: usize, line: &mut Line<LINE>)
    requires fact_1 { row ≤ 155 }
    requires fact_2 { length line.old + 465 ≤ 512 }
    ensures { line.new ≡ line.old ++ joined (two_rows square.now.grid.now square.now.side row) (extent square.now.side) }
{
    for column in 0..square.side + 2 * BORDER {
        let top = is_dark(square, row, column);
        let bottom = is_dark(square, row + 1, column);
        line.push_all(glyph(top, bottom));
    }
}

// Puts an upper half for each column.
fn push_upper(side: usize, line: &mut Line<LINE>)
    requires fact_1 { side ≤ 151 }
    requires fact_2 { length line.old + 465 ≤ 512 }
    ensures { line.new ≡ line.old ++ joined (λ (_ : ℕ). upper) (extent side) }
{
    for _ in 0..side + 2 * BORDER {
        line.push_all(b"\xe2\x96\x80");
    }
}

// Two rows in one line of text, black on white: with both colours named, dark is dark whatever the terminal's own colours are.
fn pair_line(square: &Square, row: usize) -> Line<LINE>
    requires { row ≤ 155 }
    ensures { result ≡ pair_line square.now.grid.now square.now.side row }
{
    let mut line = Line::new();
    line.push_all(b"\x1b[30;47m");
    push_rows(square, row, &mut line);
    line.push_all(b"\x1b[0m\n");
    line
}

// The last row of the border alone, where the rows are odd in number, as every symbol's are.
fn half_line(side: usize) -> Line<LINE>
    requires { side ≤ 151 }
    ensures { result ≡ half_line side }
{
    let mut line = Line::new();
    line.push_all(b"\x1b[37m");
    push_upper(side, &mut line);
    line.push_all(b"\x1b[0m\n");
    line
}

// The line of the drawing that starts with a row, at the front of `line`; answers its length.
pub fn terminal_line(square: &Square, row: usize, line: &mut [u8]) -> usize
    requires fact_1 { row ≤ 155 }
    requires fact_2 { 512 ≤ length line.old }
    ensures value { result ≡ length (terminal_line square.now.grid.now square.now.side row) }
    ensures line_after { line.new ≡ at_front (terminal_line square.now.grid.now square.now.side row) line.old }
    ensures upper_bound { result ≤ 512 }
{
    if row + 1 < square.side + 2 * BORDER {
        return pair_line(square, row).put_front(line);
    }
    half_line(square.side).put_front(line)
}
