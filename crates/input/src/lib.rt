// What the programs share: a buffer filled from a file or a pipe, in as many reads as it takes; how many arguments there are; and how it is
// said that the system failed.
#![tactic(auto)]

ghost use Rattle.std.specs.Prelude.{◌≡◌, ◌≤◌, ◌<◌, length, take, IfOk, MatchResult};
ghost use Rattle.std.specs.Io.KnownBytes.{Consumes, IsAtEnd};
ghost use Rattle.input.specs.Filled.{filled};

use std::env::FillError;
use std::io;
use std::io::{Read, Write};
use std::rt::Env;

// A read failed after so many bytes of the buffer were filled.
#[derive(Drop)]
pub struct Failed {
    pub length: usize,
    pub error: io::Error,
}

// Reads until the buffer is full, the input ends or a read fails, and answers how many bytes were read. So a buffer that isn't full holds the
// input's end, wherever the reads ended.
pub fn fill<R: Read>(reader: &mut R, buffer: &mut [u8]) -> Result<usize, Failed>
    ensures within { MatchResult result (λ n. n ≤ length buffer.new) (λ e. e.length ≤ length buffer.new) }
    ensures bytes { Consumes (R.remaining reader.old) (R.remaining reader.new) (take (filled result) buffer.new) }
    ensures end { IfOk result (λ n. n < length buffer.new → IsAtEnd (R.remaining reader.new)) }
{
    let mut at = 0;
    while at < buffer.len() {
        match reader.read(&mut buffer[at..]) {
            Ok(0) => return Ok(at),
            Ok(count) => at += count,
            Err(error) => return Err(Failed { length: at, error }),
        }
    }
    Ok(at)
}

// What the system says of an error, without the number that std puts behind it: `No such file or directory`.
fn words_of<'a>(error: &io::Error, text: &'a mut [u8; 128]) -> &'a str {
    let mut room: &mut [u8] = text;
    let cut = write!(room, "{error}").is_err();
    let left = if cut { 0 } else { room.len() };
    let length = text.len().saturating_sub(left);
    let Ok(said) = str::from_utf8(&text[..length]) else {
        return "";
    };
    match said.split_once(" (os error ") {
        Some((words, _)) => words,
        None => said,
    }
}

// Says on standard error what failed and why, as `sample.bin: No such file or directory`. Where that can't be written, nothing is said.
pub fn fail(rt: &impl Eprint, what: &str, error: &io::Error) {
    let mut text = [0u8; 128];
    let words = words_of(error, &mut text);
    let _ = eprintln!(rt; "{what}: {words}");
}

// How many arguments there are, with the program's name.
pub fn argument_count(rt: &impl Env) -> usize {
    for i in 0..usize::MAX {
        if let Err(FillError::NotPresent) = rt.arg(i, &mut []) {
            return i;
        }
    }
    usize::MAX
}

#[cfg(test)]
mod tests {
    use super::*;
    use std::test::Fail;

    // Gives two bytes at a time, so many times, and then fails.
    #[derive(Drop)]
    struct Failing {
        pairs: u8,
    }

    impl Read for Failing {
        fn read(&mut self, buf: &mut [u8]) -> io::Result<usize> {
            if self.pairs == 0 || buf.len() < 2 {
                return Err(io::Error::from_raw_os_error(5));
            }
            self.pairs -= 1;
            buf[0] = 7;
            buf[1] = 9;
            Ok(2)
        }
    }

    #[test]
    fn fills_from_a_list(rt: HostRuntime) -> Result<(), Fail> {
        let mut reader: &[u8] = b"abcde";
        let mut buffer = [0u8; 3];
        let first = fill(&mut reader, &mut buffer);
        assert_eq!(rt; first.ok(), Some(3));
        assert_eq!(rt; buffer.as_slice(), b"abc".as_slice());
        let rest = fill(&mut reader, &mut buffer);
        assert_eq!(rt; rest.ok(), Some(2));
        assert_eq!(rt; buffer.as_slice(), b"dec".as_slice());
        Ok(())
    }

    #[test]
    fn tells_the_error_after_what_was_read(rt: HostRuntime) -> Result<(), Fail> {
        let mut reader = Failing { pairs: 2 };
        let mut buffer = [0u8; 8];
        let failed = fill(&mut reader, &mut buffer).err().ok_or("no error")?;
        assert_eq!(rt; failed.length, 4);
        assert_eq!(rt; failed.error.raw_os_error(), Some(5));
        assert_eq!(rt; buffer.as_slice(), [7, 9, 7, 9, 0, 0, 0, 0].as_slice());
        Ok(())
    }

    #[test]
    fn says_errors_without_numbers(rt: HostRuntime) -> Result<(), Fail> {
        let mut text = [0u8; 128];
        let missing = io::Error::from_raw_os_error(2);
        assert_eq!(rt; words_of(&missing, &mut text), "No such file or directory");
        assert_eq!(rt;
            words_of(&io::Error::other("no number"), &mut text),
            "no number"
        );
        Ok(())
    }
}
