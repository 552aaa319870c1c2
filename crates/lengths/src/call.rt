//! Length calls on patterns.
ghost use Rattle.lengths.specs.CallText.{call_text, measured_text};

use std::fmt;

/// What a length call asks for, with the patterns of its sides.
#[derive(Clone, Copy, PartialEq, Eq, Debug)]
pub enum Call<P> {
    /// the hypotenuse over two legs
    Hypot { x: P, y: P },
    /// the other leg
    Cathetus { hypotenuse: P, leg: P },
    /// the resultant of three axes
    ThreeSides { x: P, y: P, z: P },
}

/// A length: the pattern that answers, and the steps of the walk that found it, none in a plain case.
#[derive(Clone, Copy, PartialEq, Eq, Debug)]
pub struct Measured<P> {
    pub pattern: P,
    pub count: u64,
}

/// The call's name and its patterns in hexadecimal digits.
impl<P: Copy + fmt::Radix> fmt::Display for Call<P> {
    ghost output = { call_text P.HasDigits.word };

    fn fmt<W: fmt::Write>(&self, f: &mut fmt::Formatter<W>) -> fmt::Result {
        match *self {
            Call::Hypot { x, y } => write!(f, "hypot {x:x} {y:x}"),
            Call::Cathetus { hypotenuse, leg } => write!(f, "cathetus {hypotenuse:x} {leg:x}"),
            Call::ThreeSides { x, y, z } => write!(f, "three sides {x:x} {y:x} {z:x}"),
        }
    }
}

/// The pattern in hexadecimal digits, and the count.
impl<P: Copy + fmt::Radix> fmt::Display for Measured<P> {
    ghost output = { measured_text P.HasDigits.word };

    fn fmt<W: fmt::Write>(&self, f: &mut fmt::Formatter<W>) -> fmt::Result {
        write!(f, "{:x}, count {}", self.pattern, self.count)
    }
}
