// Reads the Aztec Code tag in a portable bitmap or a text grid on standard input.
// What goes wrong is said on standard error; the exit status is 0 all the same, so a failure shows by an output that is empty or cut short.
//
// Proved: every access lies in its buffer, and read_text's answer and message are those that the definitions give for the bytes in the
// buffer (specs/Text.antt). Not proved, because no contract can speak of what the system reads or writes: that the buffer holds the input's
// bytes, and what is said.
#![tactic(auto)]

mod saying;
mod text;
mod within;

// One byte more than is taken, so that an input that is too long shows.
const INPUT: usize = 262145;

// 255 × 255 modules.
const MODULES: usize = 65025;

// No symbol holds as many bytes, so 21 doesn't arise.
const MESSAGE: usize = 8192;

// Says what the bytes hold.
fn read_bytes(
    rt: &(impl Print + Eprint),
    bytes: &[u8],
    grid: &mut [u8; MODULES],
    inner: &mut [u8; MODULES],
    message: &mut [u8],
) {
    let Some(answer) = text::read_text(bytes, grid, inner, message) else {
        let _ = eprintln!(rt; "no grid: expected a portable bitmap (P1) or rows of 0, 1, 2 and ?");
        return;
    };
    saying::say(rt, answer, message);
}

// Says what standard input holds. A buffer that is full has lost the rest.
fn read_input(
    rt: &(impl Input + Print + Eprint),
    buffer: &mut [u8],
    grid: &mut [u8; MODULES],
    inner: &mut [u8; MODULES],
    message: &mut [u8],
) {
    match input::fill(&mut rt.reader(), buffer) {
        Ok(length) if length == buffer.len() => {
            let _ = eprintln!(rt; "no grid: the input is longer than 262,144 bytes");
        }
        Ok(length) => read_bytes(rt, &buffer[..length], grid, inner, message),
        Err(failed) => input::fail(rt, "standard input", &failed.error),
    }
}

// The arrays come first, before any test (docs/DECISIONS.md, "The compiler").
fn read(rt: &(impl Input + Print + Eprint)) {
    let mut buffer = [0; INPUT];
    let mut grid = [0; MODULES];
    let mut inner = [0; MODULES];
    let mut message = [0; MESSAGE];
    read_input(rt, &mut buffer, &mut grid, &mut inner, &mut message);
}

fn main(rt: HostRuntime) {
    if 1 < input::argument_count(&rt) {
        let _ = eprintln!(rt; "usage: read_tag < GRID");
        return;
    }
    read(&rt);
}
