//! Writing into a line buffer, and reading it.
ghost use Rattle.std.specs.Prelude.{◌≡◌, ◌≤◌, [], ◌∷◌, ◌++◌, take, decimal};
ghost use Rattle.commands.specs.Buffer.{kept};
ghost use Rattle.commands.specs.Hex.{digit_byte, hex_digits};
ghost use Rattle.commands.specs.Reply.{pattern_digits};

use crate::line_buffer::{CAPACITY, LineBuffer};
use crate::pattern::PatternBits;

// No `fmt::Write`: the contract of `write!` names the bytes only where it answers `Ok`, and never promises
// that it does.
impl LineBuffer {
    /// A line with no bytes yet.
    pub(crate) fn new() -> LineBuffer
        ensures { kept result ≡ [] }
    {
        LineBuffer {
            bytes: [0; CAPACITY],
            len: 0,
        }
    }

    /// The bytes that are kept.
    pub fn as_slice(&self) -> &[u8]
        ensures { result.now ≡ kept self.now }
    {
        &self.bytes[..self.len]
    }

    /// Adds a byte at the end.
    pub(crate) fn push(&mut self, byte: u8)
        ensures { kept self.new ≡ take 81 (kept self.old ++ byte ∷ []) }
    {
        if self.len < CAPACITY {
            self.bytes[self.len] = byte;
            self.len += 1;
        }
    }

    /// Adds bytes at the end.
    pub(crate) fn push_bytes(&mut self, bytes: &[u8])
        ensures { kept self.new ≡ take 81 (kept self.old ++ bytes.now) }
    {
        for byte in bytes {
            self.push(*byte);
        }
    }

    /// Adds a number in decimal digits.
    pub(crate) fn push_decimal(&mut self, number: u64)
        ensures { kept self.new ≡ take 81 (kept self.old ++ decimal number) }
    {
        let mut digits = itoa::Buffer::new();
        self.push_bytes(digits.format(number).as_bytes());
    }

    /// Adds the last so many hexadecimal digits of a number, in small letters.
    // By its own recursion: `hex::encode_to_slice` is no plainer, since it writes into a second buffer of the
    // length for each width, to be copied from, and answers a `Result` that is never an error here.
    pub(crate) fn push_hex(&mut self, digits: u8, number: u64)
        ensures { kept self.new ≡ take 81 (kept self.old ++ hex_digits digits number) }
    {
        if digits > 0 {
            self.push_hex(digits - 1, number / 16);
            self.push(digit_byte((number % 16) as u8));
        }
    }

    /// Adds a pattern at full width, in small hexadecimal letters.
    pub(crate) fn push_pattern(&mut self, pattern: PatternBits)
        ensures { kept self.new ≡ take 81 (kept self.old ++ pattern_digits pattern) }
    {
        match pattern {
            PatternBits::Bits64(number) => self.push_hex(16, number),
            PatternBits::Bits32(number) => self.push_hex(8, number as u64),
        }
    }
}

// The small hexadecimal digit of a value. `char::from_digit` is no plainer: it gives an `Option` of a `char`.
fn digit_byte(value: u8) -> u8
    requires { value ≤ 15 }
    ensures { result ≡ digit_byte value }
{
    if value < 10 {
        b'0' + value
    } else {
        b'a' + (value - 10)
    }
}
