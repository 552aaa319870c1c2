//! The pattern that answers for a root, in any number form.
ghost use Rattle.std.specs.Prelude.{◌≡◌};
ghost use Rattle.exact.specs.Value.{Value};
ghost use Rattle.forms.specs.Encoding.{Encoding, Lawful};
ghost use Rattle.triangle.specs.Outcome.{hypot_outcome};
ghost use Rattle.triangle.specs.Answer.{OneAnswer, AnswersRoot, root_pattern, special_pattern};

use exact::length::{Magnitude, length};
use forms::number_form::NumberForm;
use forms::reading::Reading;

/// In every lawful form one pattern answers for an outcome: special cases have theirs, a root
/// within the form has the pattern of the nearest value, and nothing else answers.
pub fn one_pattern_answers<P>()
    ensures { (encoding : Encoding P) → Lawful encoding → OneAnswer encoding }
{}

/// The pattern that answers for the root of `n`, which counts squares of the form's least unit.
pub fn root_pattern<F: NumberForm>(n: u64) -> F::Pattern
    ensures value { result ≡ root_pattern F.NumberForm.encoding n }
    ensures nearest { AnswersRoot F.NumberForm.encoding n result }
{
    written_or_infinity::<F>(length(F::form().precision, n))
}

/// The pattern that answers for a hypotenuse or a resultant where a side is no finite number, and
/// nothing where all sides are finite. A signalling NaN comes first, then an infinity, then a quiet
/// NaN.
pub fn special_pattern<F: NumberForm>(sides: &[Reading]) -> Option<F::Pattern>
    ensures { result ≡ special_pattern F.NumberForm.encoding (hypot_outcome sides.now) }
{
    if sides.iter().any(|side| side.is_signalling()) {
        return Some(F::quiet_nan());
    }
    if sides.iter().any(|side| side.is_infinite()) {
        return Some(F::plus_infinity());
    }
    if sides.iter().any(|side| side.is_quiet()) {
        Some(F::quiet_nan())
    } else {
        None
    }
}

/// The pattern of a magnitude, or plus infinity where that is no value of the form.
pub fn written_or_infinity<F: NumberForm>(magnitude: Magnitude) -> F::Pattern
    ensures value { Value F.NumberForm.encoding.form magnitude.significand magnitude.exponent → result ≡ F.NumberForm.encoding.written magnitude.significand magnitude.exponent }
    ensures beyond { (Value F.NumberForm.encoding.form magnitude.significand magnitude.exponent → ⊥) → result ≡ F.NumberForm.encoding.plus_infinity }
{
    F::write(magnitude).unwrap_or(F::plus_infinity())
}

#[cfg(test)]
mod tests {
    use super::*;
    use forms::binary::{Binary32, Binary64};

    #[test]
    fn small_radicands(rt: HostRuntime) {
        // two smallest subnormals have a root between one and two units
        assert_eq!(rt; root_pattern::<Binary64>(2), 1);
        assert_eq!(rt; root_pattern::<Binary64>(0), 0);
    }

    #[test]
    fn ties_of_24_bits(rt: HostRuntime) {
        // the roots 2^25 + 2 and 2^25 + 6 lie halfway between multiples of four
        assert_eq!(rt; root_pattern::<Binary32>(0x4_0000_0800_0004), 0x0180_0000);
        assert_eq!(rt; root_pattern::<Binary32>(0x4_0000_0800_0005), 0x0180_0001);
        assert_eq!(rt; root_pattern::<Binary32>(0x4_0000_1800_0024), 0x0180_0002);
        assert_eq!(rt; root_pattern::<Binary32>(0x4_0000_1800_0023), 0x0180_0001);
    }
}
