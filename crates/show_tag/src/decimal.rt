// A number below 2^32 in decimal digits.
ghost use Rattle.std.specs.Prelude.{◌≡◌};
ghost use Rattle.show_tag.specs.Reading.{extended, read_decimal};

// The number with one digit more, if the byte is a digit.
fn extend(value: u32, byte: u8) -> Option<u32>
    ensures { result ≡ extended value byte }
{
    if !byte.is_ascii_digit() {
        return None;
    }
    value.checked_mul(10)?.checked_add(u32::from(byte - b'0'))
}

// The number that a text says, if it is digits alone.
pub fn read(text: &[u8]) -> Option<u32>
    ensures { result ≡ read_decimal text.now }
{
    if text.is_empty() {
        return None;
    }
    let mut value = 0;
    for byte in text {
        value = extend(value, *byte)?;
    }
    Some(value)
}
