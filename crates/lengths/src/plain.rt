//! The plain cases, in which no root has to be found.
ghost use Rattle.std.specs.Prelude.{◌≡◌, ◌||◌, [], ◌∷◌, if◌then◌else◌, Some, None, nat_eq, nat_le, nat_lt};
ghost use Rattle.sides.specs.Order.{side_units, is_far};
ghost use Rattle.forms.specs.Kinds.{is_signalling, is_infinite, is_quiet, is_nan};
ghost use Rattle.triangle.specs.Outcome.{magnitude, hypot_outcome, leg_outcome};
ghost use Rattle.triangle.specs.Answer.{special_pattern};
ghost use Rattle.lengths.specs.Plain.{zero_pattern};
ghost use Rattle.lengths.specs.Finite.{side_pattern};

use crate::finite::FiniteSide;
use exact::length::Magnitude;
use forms::number_form::NumberForm;
use forms::reading::Reading;
use sides::side::Side;
use triangle::answer::special_pattern;

/// The pattern that answers for a sum of squares where a side is no finite number, and nothing where
/// all are finite. A signalling NaN comes first, then an infinity, then a quiet NaN.
pub fn special_sum<F: NumberForm>(x: Reading, y: Reading, z: Reading) -> Option<F::Pattern>
    ensures { result ≡ special_pattern F.NumberForm.encoding (hypot_outcome (x ∷ y ∷ z ∷ [])) }
{
    special_pattern::<F>(&[x, y, z])
}

/// The pattern that answers for a leg where a side is no finite number, or the hypotenuse is the
/// shorter side, and nothing else. A NaN comes first, then an infinite leg, then an infinite
/// hypotenuse.
// A flag and no type of both sides: such a type would ask that the readings are of the form.
pub fn special_leg<F: NumberForm>(
    hypotenuse: Reading,
    leg: Reading,
    shorter: bool,
) -> Option<F::Pattern>
    requires { shorter ≡ nat_lt (magnitude hypotenuse) (magnitude leg) }
    ensures { result ≡ special_pattern F.NumberForm.encoding (leg_outcome hypotenuse leg) }
{
    if hypotenuse.is_nan() || leg.is_nan() || leg.is_infinite() {
        Some(F::quiet_nan())
    } else if hypotenuse.is_infinite() {
        Some(F::plus_infinity())
    } else if shorter {
        Some(F::quiet_nan())
    } else {
        None
    }
}

/// The pattern that answers for a sum of squares whose root is zero or the longest side, by the longest
/// side and the next.
pub fn plain_sum<F: NumberForm>(longest: &FiniteSide<F>, second: Side) -> Option<F::Pattern>
    ensures { result ≡ (if nat_eq (side_units longest.now.side) 0 || is_far (side_units longest.now.side) (side_units second) then Some (side_pattern F.NumberForm.encoding longest.now.side) else None) }
{
    if longest.side.is_zero() || second.is_far(longest.side) {
        longest.pattern()
    } else {
        None
    }
}

/// The pattern that answers for a leg that is zero or as long as its hypotenuse.
pub fn plain_leg<F: NumberForm>(hypotenuse: &FiniteSide<F>, leg: Side) -> Option<F::Pattern>
    ensures { result ≡ (if nat_le (side_units hypotenuse.now.side) (side_units leg) then Some (zero_pattern F.NumberForm.encoding) else (if is_far (side_units hypotenuse.now.side) (side_units leg) then Some (side_pattern F.NumberForm.encoding hypotenuse.now.side) else None)) }
{
    if !leg.is_shorter(hypotenuse.side) {
        F::write(Magnitude::new(0, 0))
    } else if leg.is_far(hypotenuse.side) {
        hypotenuse.pattern()
    } else {
        None
    }
}
