//! The trait of number forms.
ghost use Rattle.std.specs.Prelude.{◌≡◌};
ghost use Rattle.std.specs.Option.{SomeIff};
ghost use Rattle.exact.specs.Value.{Value};
ghost use Rattle.forms.specs.Encoding.{Encoding, Lawful};

use crate::reading::Reading;
use exact::form::Form;
use exact::length::Magnitude;

/// A number form: its parameters, and how patterns encode its values. All that code may use of a
/// form is its law.
pub trait NumberForm {
    type Pattern: Copy;

    ghost encoding: { Encoding Self.Pattern };

    /// The precision, the exponents and the largest significand.
    fn form() -> Form
        ensures { result ≡ encoding.form };

    /// What a pattern means.
    fn read(pattern: Self::Pattern) -> Reading
        ensures { result ≡ encoding.reading pattern };

    /// The plus-signed pattern of a magnitude, or nothing where that is no value.
    fn write(magnitude: Magnitude) -> Option<Self::Pattern>
        ensures { SomeIff result (Value encoding.form magnitude.significand magnitude.exponent) (encoding.written magnitude.significand magnitude.exponent) };

    /// The pattern that answers where there is no number to answer.
    fn quiet_nan() -> Self::Pattern
        ensures { result ≡ encoding.quiet_nan };

    /// The pattern that answers for lengths beyond the largest value.
    fn plus_infinity() -> Self::Pattern
        ensures { result ≡ encoding.plus_infinity };

    ghost lawful: { Lawful encoding };
}
