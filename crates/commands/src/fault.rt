//! Why a line is refused.
ghost use Rattle.std.specs.Prelude.{◌≡◌};
ghost use Rattle.commands.specs.declared.fault.TextFault.TheVariants.{Digit as DigitFault, Call as CallFault};
ghost use Rattle.commands.specs.Buffer.{kept};
ghost use Rattle.commands.specs.Fault.{fault_layer, fault_number, fault_place, layer_word};
ghost use Rattle.commands.specs.Reply.{fault_line, refusal_line};

use crate::line_buffer::LineBuffer;
use sheet::hex::NotADigit;
use solver::refusal::CallRefusal;

/// Where a refusal comes from.
#[derive(Clone, Copy, PartialEq, Eq, Debug)]
pub enum Layer {
    Text,
    Solver,
}

impl Layer {
    /// The word that names the layer in an answer.
    // No `Display`: the contract of `write!` names the bytes only where it answers `Ok`, and never promises
    // that it does.
    pub(crate) fn word(self) -> &'static [u8]
        ensures { result.now ≡ layer_word self }
    {
        match self {
            Layer::Text => b"text",
            Layer::Solver => b"solver",
        }
    }
}

/// What is wrong with a line. Places count from 0 at the line's start.
#[derive(Clone, Copy, PartialEq, Eq, Debug)]
pub enum TextFault {
    /// over 80 bytes
    LongLine,
    /// the place where a letter of an operation or of a form should stand, and does not
    Letter(usize),
    /// fields or spaces not as laid down, with the length of the line
    Layout(usize),
    /// the place of the first byte that should be a hexadecimal digit, and is none
    Digit(usize),
    /// the solver refuses the call that the line asks for
    Call(CallRefusal),
}

impl From<NotADigit> for TextFault {
    ghost from_gives = { λ other r. r ≡ DigitFault other.place };

    fn from(other: NotADigit) -> TextFault {
        TextFault::Digit(other.place)
    }
}

impl From<CallRefusal> for TextFault {
    ghost from_gives = { λ refusal r. r ≡ CallFault refusal };

    fn from(refusal: CallRefusal) -> TextFault {
        TextFault::Call(refusal)
    }
}

impl TextFault {
    /// The number of the refusal.
    pub fn number(self) -> u32
        ensures { result ≡ fault_number self }
    {
        match self {
            TextFault::LongLine => 7,
            TextFault::Letter(_) => 8,
            TextFault::Layout(_) => 9,
            TextFault::Digit(_) => 10,
            TextFault::Call(refusal) => refusal.numbered().number,
        }
    }

    /// The layer that refuses.
    pub fn layer(self) -> Layer
        ensures { result ≡ fault_layer self }
    {
        match self {
            TextFault::LongLine
            | TextFault::Letter(_)
            | TextFault::Layout(_)
            | TextFault::Digit(_) => Layer::Text,
            TextFault::Call(_) => Layer::Solver,
        }
    }

    /// The place that the refusal tells: the line's length for its layout, and the steps left for a
    /// call that the solver refuses.
    pub fn place(self) -> u64
        ensures { result ≡ fault_place self }
    {
        match self {
            TextFault::LongLine => 80,
            TextFault::Letter(place) => place as u64,
            TextFault::Layout(length) => length as u64,
            TextFault::Digit(place) => place as u64,
            TextFault::Call(refusal) => refusal.numbered().value.unwrap_or(0),
        }
    }

    /// The line that tells the refusal, with the byte 10 that ends it.
    pub fn line(self) -> LineBuffer
        ensures { kept result ≡ fault_line self }
    {
        refusal_line(self.number(), self.layer(), self.place())
    }
}

/// The line of a refusal by its number and layer, with the place or number that it tells, and the byte
/// 10 that ends it.
pub fn refusal_line(number: u32, layer: Layer, place: u64) -> LineBuffer
    ensures { kept result ≡ refusal_line number layer place }
{
    let mut line = LineBuffer::new();
    line.push_bytes(b"! ");
    line.push_decimal(number as u64);
    line.push(b' ');
    line.push_bytes(layer.word());
    line.push(b' ');
    line.push_decimal(place);
    line.push(b'\n');
    line
}
