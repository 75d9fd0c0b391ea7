// Shows the Aztec Code symbol of a message: drawn in the terminal, for a phone to read off the screen, or as a portable bitmap.
// Usage and refusals go to standard error; the exit status is 0 all the same, so a failure shows by an output that is empty or cut short.
#![tactic(auto)]

mod decimal;

ghost use Rattle.std.specs.Prelude.{◌≤◌, length};

use picture::Square;
use std::rt::Env;
use std::{fmt, io};

// The largest symbol, F32, has 151 × 151 modules.
const MODULES: usize = 22801;

// No shape holds more than 4,992 bytes. A longer argument is cut to this length, and so refused as the whole would be.
const MESSAGE: usize = 5000;

// A percentage below 2^32 with more digits than this has needless zeros in front; it counts as no number.
const DIGITS: usize = 32;

fn print_usage(rt: &impl Eprint) {
    let _ = eprintln!(rt; "usage: show_tag [--pbm] MESSAGE PERCENT");
}

// What the encoder's number means.
#[derive(Clone, Copy)]
struct Refusal(u32);

impl fmt::Display for Refusal {
    fn fmt<W: fmt::Write>(&self, f: &mut fmt::Formatter<W>) -> fmt::Result {
        let number = self.0;
        let meaning = match number {
            1 => "the message is empty",
            2 => "the percentage is outside 5 to 95",
            3 => "no listed shape fits",
            _ => "the grid is too short",
        };
        write!(f, "refused {number}: {meaning}")
    }
}

fn write_drawing(rt: &impl Print, square: &Square, line: &mut [u8]) -> io::Result<()>
    requires { 512 ≤ length line.old }
{
    for row in (0..square.side + 2 * picture::BORDER).step_by(2) {
        let length = picture::terminal_line(square, row, line);
        rt.write_all(&line[..length])?;
    }
    Ok(())
}

fn write_header(rt: &impl Print, width: usize) -> io::Result<()> {
    println!(rt; "P1\n{width} {width}")
}

fn write_bitmap(rt: &impl Print, square: &Square, line: &mut [u8]) -> io::Result<()>
    requires { 512 ≤ length line.old }
{
    let width = square.side + 2 * picture::BORDER;
    write_header(rt, width)?;
    for row in 0..width {
        let length = picture::pbm_row(square, row, line);
        rt.write_all(&line[..length])?;
    }
    Ok(())
}

fn write_picture(rt: &impl Print, square: &Square, bitmap: bool) -> io::Result<()> {
    let mut line = [0; picture::LINE];
    if bitmap {
        return write_bitmap(rt, square, &mut line);
    }
    write_drawing(rt, square, &mut line)
}

fn show(rt: &(impl Print + Eprint), message: &[u8], percent: u32, bitmap: bool) {
    let mut modules = [0; MODULES];
    let grid: &mut [u8] = &mut modules;
    let answer = encoder::encode(message, percent, grid);
    if answer.number != 0 {
        let refusal = Refusal(answer.number);
        let _ = eprintln!(rt; "{refusal}");
        return;
    }
    // Only a symbol that was made is shown.
    prove!(answer.number == 0);
    let square = Square {
        grid,
        side: answer.side as usize,
    };
    if let Err(error) = write_picture(rt, &square, bitmap) {
        input::fail(rt, "standard output", &error);
    }
}

// The percentage that an argument says.
fn percent_at(rt: &impl Env, i: usize) -> Option<u32> {
    let mut digits = [0; DIGITS];
    let length = rt.arg(i, &mut digits).ok()?;
    decimal::read(&digits[..length])
}

// Shows the message that stands at argument i, before its percentage.
fn show_argument(rt: &(impl Env + Print + Eprint), i: usize, bitmap: bool)
    requires { i ≤ 2 }
{
    let mut message = [0; MESSAGE];
    let told = rt.arg(i, &mut message);
    let Some(percent) = percent_at(rt, i + 1) else {
        print_usage(rt);
        return;
    };
    match told {
        Ok(length) => show(rt, &message[..length], percent, bitmap),
        Err(_) => show(rt, &message, percent, bitmap),
    }
}

fn asks_for_bitmap(rt: &impl Env) -> bool {
    let mut word = [0u8; 8];
    match rt.arg(1, &mut word) {
        Ok(length) => &word[..length] == b"--pbm".as_slice(),
        Err(_) => false,
    }
}

fn main(rt: HostRuntime) {
    let count = input::argument_count(&rt);
    if count == 3 {
        show_argument(&rt, 1, false);
        return;
    }
    if count == 4 && asks_for_bitmap(&rt) {
        show_argument(&rt, 2, true);
        return;
    }
    print_usage(&rt);
}
