// What the program says: the tag's values and message, or the refusal.
ghost use Rattle.std.specs.Prelude.{◌≤◌, length};

use decoder::Decoded;
use std::{fmt, io};

// What the decoder's number means.
#[derive(Clone, Copy)]
struct Refusal(u32);

impl fmt::Display for Refusal {
    fn fmt<W: fmt::Write>(&self, f: &mut fmt::Formatter<W>) -> fmt::Result {
        let number = self.0;
        let meaning = match number {
            11 => "the side is not a shape's",
            12 => "the grid's length is not the side squared",
            13 => "a module is above 2",
            14 => "no single best position with 9 matches",
            15 => "the mode words are beyond correction",
            16 => "the layers do not give this side, or there are too many data words",
            17 => "the data block is beyond correction",
            18 => "a corrected data word is all 0s or all 1s",
            19 => "FLG, or a shift followed by no character or pair",
            20 => "an item is cut short",
            _ => "the message buffer is too short",
        };
        write!(f, "refused {number}: {meaning}")
    }
}

// A shape by its number: C1 to C4, then F1 and so on.
#[derive(Clone, Copy)]
struct Shape(u32);

impl fmt::Display for Shape {
    fn fmt<W: fmt::Write>(&self, f: &mut fmt::Formatter<W>) -> fmt::Result {
        let number = self.0;
        if 4 < number {
            let layers = number - 4;
            return write!(f, "F{layers}");
        }
        write!(f, "C{number}")
    }
}

// Shape, position, the two counts and the length, a write for each: an output that takes no more keeps those before.
fn write_answer(rt: &impl Print, answer: Decoded) -> io::Result<()> {
    let shape = Shape(answer.shape);
    let position = answer.position;
    let unread = answer.unread;
    let wrong = answer.wrong;
    let length = answer.length;
    print!(rt; "{shape}")?;
    print!(rt; ", position {position}")?;
    print!(rt; ", unread words {unread}")?;
    print!(rt; ", wrong words {wrong}")?;
    print!(rt; ", bytes {length}")?;
    println!(rt)
}

fn write_tag(rt: &impl Print, answer: Decoded, message: &[u8]) -> io::Result<()>
    requires { answer.length ≤ length message.now }
{
    write_answer(rt, answer)?;
    let length = answer.length as usize;
    rt.write_all(&message[..length])?;
    println!(rt)
}

pub fn say(rt: &(impl Print + Eprint), answer: Decoded, message: &[u8])
    requires { answer.length ≤ length message.now }
{
    if answer.number != 0 {
        let refusal = Refusal(answer.number);
        let _ = eprintln!(rt; "{refusal}");
        return;
    }
    if let Err(error) = write_tag(rt, answer, message) {
        input::fail(rt, "standard output", &error);
    }
}
