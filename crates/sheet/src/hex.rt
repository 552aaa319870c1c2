//! Numbers in hexadecimal digits.
ghost use Rattle.std.specs.Prelude.{◌≡◌, ◌^◌, ◌<◌, ◌≤◌, length, IfOk};
ghost use Rattle.sheet.specs.Hex.{hex_digit, hex_number};

/// A byte of a line that should be a hexadecimal digit, and is none.
#[derive(Clone, Copy, PartialEq, Eq, Debug)]
pub struct NotADigit {
    pub place: usize,
}

/// The value of a hexadecimal digit, in either case.
// No plainer: `char::from(byte).to_digit(16)` gives a `u32`, which its caller would have to bring back to a byte.
pub fn digit_value(byte: u8) -> Option<u8>
    ensures { result ≡ hex_digit byte }
{
    match byte {
        b'0'..=b'9' => Some(byte - b'0'),
        b'a'..=b'f' => Some(byte - b'a' + 10),
        b'A'..=b'F' => Some(byte - b'A' + 10),
        _ => None,
    }
}

/// The number that at most sixteen digits spell, or the place of the first byte that is no digit.
/// The field begins at `place` of its line. An inner function, public for `commands`: only fields of
/// lines that are laid out come here.
pub fn number(place: usize, field: &[u8]) -> Result<u64, NotADigit>
    requires few { length field.now ≤ 16 }
    requires within { place ≤ 80 }
    ensures value { result ≡ hex_number place field.now }
    ensures bound { IfOk result (λ v. v < 16 ^ length field.now) }
{
    let mut value = 0;
    for (i, byte) in field.iter().enumerate() {
        let digit = digit_value(*byte).ok_or(NotADigit { place: place + i })?;
        value = 16 * value + digit as u64;
    }
    Ok(value)
}
