// The fields of a line after the record's number, each put after a space.
ghost use Rattle.std.specs.Prelude.{◌≡◌, ◌+◌, ◌≤◌, ◌++◌, length};
ghost use Rattle.listing.specs.Decimal.{decimal};
ghost use Rattle.listing.specs.Line.{field, shape_name, answer_fields};

use crate::decimal::push_number;
use encoder::Encoded;
use text_line::Line;

pub fn push_word(word: &[u8], line: &mut Line<64>)
    requires { length line.old + length (field word.now) ≤ 64 }
    ensures put { line.new ≡ line.old ++ field word.now }
    ensures length { length line.new ≡ length line.old + length (field word.now) }
{
    line.push(b' ');
    line.push_all(word);
}

fn push_value(n: u32, line: &mut Line<64>)
    requires { length line.old + 11 ≤ 64 }
    ensures put { line.new ≡ line.old ++ field (decimal n) }
    ensures upper_bound { length line.new ≤ length line.old + 11 }
{
    line.push(b' ');
    push_number(n as usize, line);
}

// C and the number, or F and the number less 4.
fn push_shape(shape: u32, line: &mut Line<64>)
    requires fact_1 { shape ≤ 36 }
    requires fact_2 { length line.old + 4 ≤ 64 }
    ensures put { line.new ≡ line.old ++ field (shape_name shape) }
    ensures upper_bound { length line.new ≤ length line.old + 4 }
{
    line.push(b' ');
    if 4 < shape {
        line.push(b'F');
        return push_number((shape - 4) as usize, line);
    }
    line.push(b'C');
    push_number(shape as usize, line);
}

// Shape, side, D and K, or the refusal's number.
pub fn push_answer(answer: Encoded, line: &mut Line<64>)
    requires fact_1 { answer.shape ≤ 36 }
    requires fact_2 { length line.old + 37 ≤ 64 }
    ensures put { line.new ≡ line.old ++ answer_fields answer }
    ensures upper_bound { length line.new ≤ length line.old + 37 }
{
    if answer.number != 0 {
        push_word(b"refused", line);
        return push_value(answer.number, line);
    }
    push_shape(answer.shape, line);
    push_value(answer.side, line);
    push_value(answer.data_words, line);
    push_value(answer.check_words, line);
}
