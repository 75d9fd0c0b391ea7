// The print run: a line for each record of 32 bytes (document 01, "The print run").
#![tactic(auto)]

mod decimal;
mod fields;

ghost use Rattle.std.specs.Prelude.{◌≡◌, ◌+◌, ◌*◌, ◌≤◌, ◌<◌, ◌^◌, ◌++◌, length};
ghost use Rattle.listing.specs.Line.{all_zero, sound, record_fields, line_of, records, lines_from};
ghost use Rattle.list_laws.specs.Putting.{at_front};

use decimal::push_number;
use fields::{push_answer, push_word};
use text_line::Line;

const RECORD: usize = 32;

fn is_zero(bytes: &[u8]) -> bool
    ensures { result ≡ all_zero bytes.now }
{
    bytes.iter().all(|byte| *byte == 0)
}

// Whether the record is whole, its length 1 to 30 and its unused bytes 0.
#[tactic(auto, unfolding(crate::specs::Line::sound, crate::specs::Line::message_length, crate::specs::Line::unused))]
fn is_sound(record: &[u8]) -> bool
    ensures { result ≡ sound «record».now }
{
    if record.len() != RECORD {
        return false;
    }
    let length = usize::from(record[0]);
    (1..=30).contains(&length) && is_zero(&record[2 + length..])
}

// What stands after the record's number.
fn push_record(record: &[u8], line: &mut Line<64>)
    requires { length line.old + 37 ≤ 64 }
    ensures put { line.new ≡ line.old ++ record_fields «record».now }
    ensures upper_bound { length line.new ≤ length line.old + 37 }
{
    if !is_sound(record) {
        return push_word(b"bad", line);
    }
    let end = 2 + usize::from(record[0]);
    let answer = encoder::plan(&record[2..end], u32::from(record[1]));
    push_answer(answer, line);
}

// Writes the line of a record to the front of `line`, and answers its length. There is room in 64 bytes: 20 digits of a number, 3 bytes of
// a shape, at most 10 digits each of side, D and K, four spaces and the line feed.
pub fn write_line(number: usize, record: &[u8], line: &mut [u8]) -> usize
    requires { 64 ≤ length line.old }
    ensures value { result ≡ length (line_of number «record».now) }
    ensures line_after { line.new ≡ at_front (line_of number «record».now) line.old }
    ensures upper_bound { result ≤ 64 }
{
    let mut text = Line::new();
    push_number(number, &mut text);
    push_record(record, &mut text);
    text.push(b'\n');
    text.put_front(line)
}

// Writes the lines of the records that `bytes` holds, the last of which may be short, to the front of `lines`, numbered from
// `first`, and answers their length.
pub fn write_lines(bytes: &[u8], first: usize, lines: &mut [u8]) -> usize
    requires bytes_in_bounds { 64 * records (length bytes.now) ≤ length lines.old }
    requires bytes_bound { first + records (length bytes.now) < 2 ^ 64 }
    ensures value { result ≡ length (lines_from first bytes.now) }
    ensures lines_after { lines.new ≡ at_front (lines_from first bytes.now) lines.old }
{
    let mut at = 0;
    for (k, record) in bytes.chunks(RECORD).enumerate() {
        at += write_line(first + k, record, &mut lines[at..]);
    }
    at
}
