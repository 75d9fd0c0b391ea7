// The bit stream's functions under C names, for the comparison in harness/ alone: the library for users is aztec_c. Each has its library
// function's contract, premises included, which the harness keeps.
#![tactic(auto)]

ghost use Rattle.std.specs.Prelude.{◌≡◌, ◌≤◌, length};
ghost use Rattle.std.proofs.lemmas.List.Edits.{sets};
ghost use Rattle.stream.specs.Stream.{bits_of};
ghost use Rattle.stream.specs.Stuffing.{stuff};
ghost use Rattle.stream_writer.specs.Encoding.{words_needed};
ghost use Rattle.stream.specs.Items.{judge, verdict_of};
ghost use Rattle.stream_reader.specs.Written.{Room, written};
ghost use Rattle.stream_c.specs.Judged.{judged_of};

use stream::items::Refusal;

#[unsafe(no_mangle)]
pub extern "C" fn stream_count(message: &[u8], word_size: u32) -> usize
    requires { (2 ≤ word_size) × (word_size ≤ 12) }
    ensures { result ≡ words_needed word_size message.now }
{
    stream_writer::encoding::count_words(message, word_size as usize)
}

#[unsafe(no_mangle)]
pub extern "C" fn stream_write(message: &[u8], word_size: u32, words: &mut [u16]) -> usize
    requires { (2 ≤ word_size) × (word_size ≤ 12) × (length message.now ≤ 4992) }
    ensures { (result ≡ length (stuff word_size (bits_of message.now)))
        × (words.new ≡ sets words.old 0 (stuff word_size (bits_of message.now))) }
{
    stream_writer::encoding::write_words(message, word_size as usize, words)
}

// 0 and the message's length, or the number that refuses and the bit place of the item at fault.
#[repr(C)]
#[derive(Clone, Copy)]
pub struct Judged {
    pub number: u32,
    pub value: usize,
}

impl From<Result<usize, Refusal>> for Judged {
    ghost from_gives = { λ verdict numbers. numbers ≡ judged_of verdict };

    fn from(verdict: Result<usize, Refusal>) -> Judged {
        match verdict {
            Ok(length) => Judged {
                number: 0,
                value: length,
            },
            Err(refusal) => Judged {
                number: u32::from(refusal.fault),
                value: refusal.bit,
            },
        }
    }
}

#[unsafe(no_mangle)]
pub extern "C" fn stream_judge(words: &[u16], word_size: u32) -> Judged
    requires fact_1 { 2 ≤ word_size }
    requires fact_2 { word_size ≤ 12 }
    requires fact_3 { length words.now ≤ 65536 }
    ensures { result ≡ judged_of (verdict_of (judge word_size words.now)) }
{
    Judged::from(stream_reader::message::judge(words, word_size as usize))
}

#[unsafe(no_mangle)]
pub extern "C" fn stream_message(words: &[u16], word_size: u32, message: &mut [u8])
    requires le_word_size { (2 ≤ word_size) × ((word_size ≤ 12) × (length words.now ≤ 65536)) }
    requires room { Room (judge word_size words.now) message.old }
    ensures { message.new ≡ written (judge word_size words.now) message.old }
{
    stream_reader::message::write_message(words, word_size as usize, message)
}
