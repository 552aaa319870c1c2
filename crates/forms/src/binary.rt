//! The binary interchange formats of 64 and 32 bits.
ghost use Rattle.std.specs.Prelude.{◌≡◌, ℕ, ◌+◌, ◌/◌, ◌%◌, ◌^◌, ◌<◌, ℤ, negsuc, nat_le};
ghost use Rattle.forms.specs.Encoding.{Lawful};
ghost use Rattle.forms.specs.Binary.{binary, read_fields, FieldsAre};
ghost use Rattle.std.proofs.Common.{rules};

use crate::number_form::NumberForm;
use crate::reading::Reading;
use exact::form::Form;
use exact::length::Magnitude;
use std::marker::PhantomData;

/// A pattern type with the binary interchange format of its width. From the top a pattern has a sign
/// bit, an exponent field and a fraction field.
pub trait BinaryPattern: Copy {
    /// The bits of a significand, the implicit one counted.
    const PRECISION: u32;

    /// The exponent of the least positive value.
    const LEAST_EXPONENT: i32;

    /// An exponent field of ones.
    const EXPONENT_ONES: u32;

    /// The bit above the fraction field.
    const IMPLICIT_BIT: u64;

    ghost PRECISION: { ℕ };

    ghost LEAST_EXPONENT: { ℤ };

    ghost EXPONENT_ONES: { ℕ };

    ghost IMPLICIT_BIT: { ℕ };

    ghost exponent_bits: { ℕ };

    ghost fraction_bits: { ℕ };

    ghost word: { Self → ℕ };

    ghost pattern: { ℕ → Self };

    /// The pattern as a word.
    fn to_word(self) -> u64
        ensures { result ≡ word self };

    /// The pattern of a word with no sign bit.
    fn from_word(bits: u64) -> Self
        requires { bits < 2 ^ (exponent_bits + fraction_bits) }
        ensures { result ≡ pattern bits };

    ghost fields: { FieldsAre exponent_bits fraction_bits PRECISION EXPONENT_ONES IMPLICIT_BIT };

    ghost lawful: { Lawful (binary exponent_bits fraction_bits LEAST_EXPONENT word pattern) };
}

impl BinaryPattern for u64 {
    const PRECISION: u32 = 53;

    const LEAST_EXPONENT: i32 = -1074;

    const EXPONENT_ONES: u32 = 0x7ff;

    const IMPLICIT_BIT: u64 = 1 << 52;

    ghost PRECISION = { 53 };

    ghost LEAST_EXPONENT = { negsuc 1073 };

    ghost EXPONENT_ONES = { 0x7ff };

    ghost IMPLICIT_BIT = { 2 ^ 52 };

    ghost exponent_bits = { 11 };

    ghost fraction_bits = { 52 };

    ghost word = { λ pattern. pattern };

    ghost pattern = { λ word. word };

    ghost fields = { Prim.search rules };

    ghost lawful = { Prim.search rules };

    fn to_word(self) -> u64 {
        self
    }

    fn from_word(bits: u64) -> u64 {
        bits
    }
}

impl BinaryPattern for u32 {
    const PRECISION: u32 = 24;

    const LEAST_EXPONENT: i32 = -149;

    const EXPONENT_ONES: u32 = 0xff;

    const IMPLICIT_BIT: u64 = 1 << 23;

    ghost PRECISION = { 24 };

    ghost LEAST_EXPONENT = { negsuc 148 };

    ghost EXPONENT_ONES = { 0xff };

    ghost IMPLICIT_BIT = { 2 ^ 23 };

    ghost exponent_bits = { 8 };

    ghost fraction_bits = { 23 };

    ghost word = { λ pattern. pattern };

    ghost pattern = { λ word. word };

    ghost fields = { Prim.search rules };

    ghost lawful = { Prim.search rules };

    fn to_word(self) -> u64 {
        self as u64
    }

    fn from_word(bits: u64) -> u32 {
        bits as u32
    }
}

/// The binary interchange format of a pattern type.
pub struct Binary<P> {
    // Public, so that any crate can make a value and take it apart.
    pub pattern: PhantomData<P>,
}

pub type Binary64 = Binary<u64>;

pub type Binary32 = Binary<u32>;

impl<P: BinaryPattern> NumberForm for Binary<P> {
    type Pattern = P;

    ghost encoding = { binary P.exponent_bits P.fraction_bits P.LEAST_EXPONENT P.word P.pattern };

    ghost lawful = { P.lawful };

    fn form() -> Form {
        Form {
            precision: P::PRECISION,
            least: P::LEAST_EXPONENT,
            span: P::EXPONENT_ONES - 2,
            largest: 2 * P::IMPLICIT_BIT - 1,
        }
    }

    fn read(pattern: P) -> Reading {
        let fields = Fields::of::<P>(pattern.to_word());
        fields.read(P::EXPONENT_ONES, P::IMPLICIT_BIT)
    }

    fn write(magnitude: Magnitude) -> Option<P> {
        // Stays a branch: in a closure for `then` the proof of what `from_word` requires did not close.
        if Self::form().contains(magnitude) {
            let field = magnitude.exponent as u64 * P::IMPLICIT_BIT;
            Some(P::from_word(field + magnitude.significand))
        } else {
            None
        }
    }

    fn quiet_nan() -> P {
        let infinity = P::EXPONENT_ONES as u64 * P::IMPLICIT_BIT;
        P::from_word(infinity + P::IMPLICIT_BIT / 2)
    }

    fn plus_infinity() -> P {
        P::from_word(P::EXPONENT_ONES as u64 * P::IMPLICIT_BIT)
    }
}

// The parts of a binary pattern.
#[derive(Clone, Copy)]
struct Fields {
    negative: bool,
    exponent: u32,
    fraction: u64,
}

impl Fields {
    // The parts of a word in the format of `P`.
    fn of<P: BinaryPattern>(word: u64) -> Fields
        ensures negative { result.negative ≡ nat_le (2 ^ (P.BinaryPattern.exponent_bits + P.BinaryPattern.fraction_bits)) word }
        ensures exponent { result.exponent ≡ word / 2 ^ P.BinaryPattern.fraction_bits % 2 ^ P.BinaryPattern.exponent_bits }
        ensures fraction { result.fraction ≡ word % 2 ^ P.BinaryPattern.fraction_bits }
    {
        let ones = P::EXPONENT_ONES;
        let implicit_bit = P::IMPLICIT_BIT;
        let exponents = ones as u64 + 1;
        Fields {
            negative: word >= exponents * implicit_bit,
            exponent: (word / implicit_bit % exponents) as u32,
            fraction: word % implicit_bit,
        }
    }

    // What the fields mean, `ones` being an exponent field of ones and `implicit_bit` the bit above
    // the fraction field.
    fn read(self, ones: u32, implicit_bit: u64) -> Reading
        requires { self.fraction + implicit_bit < 2 ^ 64 }
        ensures { result ≡ read_fields ones implicit_bit self.negative self.exponent self.fraction }
    {
        if self.exponent == 0 {
            Reading::Finite {
                negative: self.negative,
                significand: self.fraction,
                exponent: 0,
            }
        } else if self.exponent != ones {
            Reading::Finite {
                negative: self.negative,
                significand: implicit_bit + self.fraction,
                exponent: self.exponent - 1,
            }
        } else if self.fraction == 0 {
            Reading::Infinite {
                negative: self.negative,
            }
        } else if self.fraction < implicit_bit / 2 {
            Reading::SignallingNan
        } else {
            Reading::QuietNan
        }
    }
}

#[cfg(test)]
mod tests {
    use super::*;

    fn finite(negative: bool, significand: u64, exponent: u32) -> Reading {
        Reading::Finite {
            negative,
            significand,
            exponent,
        }
    }

    #[test]
    fn finite_edges(rt: HostRuntime) {
        assert_eq!(rt; Binary64::read(0), finite(false, 0, 0));
        assert_eq!(rt; Binary64::read(0x8000_0000_0000_0000), finite(true, 0, 0));
        assert_eq!(rt; Binary64::read(1), finite(false, 1, 0));
        assert_eq!(rt;
            Binary64::read(0x0010_0000_0000_0000),
            finite(false, 1 << 52, 0)
        );
        assert_eq!(rt;
            Binary64::read(0x0020_0000_0000_0000),
            finite(false, 1 << 52, 1)
        );
        assert_eq!(rt;
            Binary64::read(0xffef_ffff_ffff_ffff),
            finite(true, (1 << 53) - 1, 2045)
        );
        assert_eq!(rt; Binary32::read(0x007f_ffff), finite(false, 0x7f_ffff, 0));
        assert_eq!(rt; Binary32::read(0x7f7f_ffff), finite(false, 0xff_ffff, 253));
    }

    #[test]
    fn special_patterns(rt: HostRuntime) {
        assert_eq!(rt;
            Binary64::read(0x7ff0_0000_0000_0000),
            Reading::Infinite { negative: false }
        );
        assert_eq!(rt;
            Binary64::read(0xfff0_0000_0000_0000),
            Reading::Infinite { negative: true }
        );
        assert_eq!(rt;
            Binary64::read(0x7ff0_0000_0000_0001),
            Reading::SignallingNan
        );
        assert_eq!(rt;
            Binary64::read(0xfff7_ffff_ffff_ffff),
            Reading::SignallingNan
        );
        assert_eq!(rt; Binary64::read(0x7ffc_0000_0000_0000), Reading::QuietNan);
        assert_eq!(rt;
            Binary32::read(0xff80_0000),
            Reading::Infinite { negative: true }
        );
        assert_eq!(rt; Binary32::read(0x7fbf_ffff), Reading::SignallingNan);
        assert_eq!(rt; Binary32::read(0x7fc0_0000), Reading::QuietNan);
    }

    #[test]
    fn written_values(rt: HostRuntime) {
        assert_eq!(rt; Binary64::write(Magnitude::new(0, 0)), Some(0));
        assert_eq!(rt;
            Binary64::write(Magnitude::new(1 << 52, 0)),
            Some(0x0010_0000_0000_0000)
        );
        assert_eq!(rt;
            Binary64::write(Magnitude::new((1 << 53) - 1, 2045)),
            Some(0x7fef_ffff_ffff_ffff)
        );
        assert_eq!(rt; Binary64::write(Magnitude::new(1 << 52, 2046)), None);
        assert_eq!(rt; Binary64::write(Magnitude::new(1, 1)), None);
        assert_eq!(rt;
            Binary32::write(Magnitude::new(0x80_0000, 150)),
            Some(0x4b80_0000)
        );
        assert_eq!(rt; Binary32::write(Magnitude::new(0x100_0000, 0)), None);
    }
}
