// A line of text that grows at its end, in room for N bytes.
#![tactic(auto)]

ghost use Rattle.std.specs.Prelude.{◌≡◌, ◌+◌, ◌≤◌, ◌<◌, List, [], ◌∷◌, ◌++◌, ℕ, length, take};
ghost use Rattle.list_laws.specs.Putting.{at_front};

use std::marker::Model;

#[derive(Drop)]
pub struct Line<const N: usize> {
    bytes: [u8; N],
    length: usize,
}

// Clauses see the bytes that were put in.
impl<const N: usize> Model for Line<N> {
    ghost Value = { List ℕ };

    ghost view = { λ line. take line.length line.bytes };

    ghost invariant = { λ line. line.length ≤ N };
}

impl<const N: usize> Line<N> {
    pub fn new() -> Self
        ensures { result ≡ [] }
    {
        Line {
            bytes: [0; N],
            length: 0,
        }
    }

    pub fn push(&mut self, byte: u8)
        requires { length self.old < N }
        ensures put { self.new ≡ self.old ++ byte ∷ [] }
        ensures length { length self.new ≡ length self.old + 1 }
    {
        self.bytes[self.length] = byte;
        self.length += 1;
    }

    pub fn push_all(&mut self, text: &[u8])
        requires { length self.old + length text.now ≤ N }
        ensures put { self.new ≡ self.old ++ text.now }
        ensures length { length self.new ≡ length self.old + length text.now }
    {
        let start = self.length;
        let end = start + text.len();
        let room = &mut self.bytes[..];
        room[start..end].copy_from_slice(text);
        self.length = end;
    }

    // Puts the line at the front of a buffer, and answers its length.
    pub fn put_front(&self, buffer: &mut [u8]) -> usize
        requires { length self.now ≤ length buffer.old }
        ensures value { result ≡ length self.now }
        ensures buffer_after { buffer.new ≡ at_front self.now buffer.old }
    {
        let length = self.length;
        buffer[..length].copy_from_slice(&self.bytes[..length]);
        length
    }
}
