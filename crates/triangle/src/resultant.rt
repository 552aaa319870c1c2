//! The resultant of two probe readings in thousandths.
ghost use Rattle.std.specs.Prelude.{◌≡◌, ◌^◌, ◌<◌, [], ◌∷◌};
ghost use Rattle.forms.specs.Thousandths.{thousandths, read_thousandths};
ghost use Rattle.triangle.specs.Outcome.{magnitude};
ghost use Rattle.triangle.specs.Answer.{hypot_pattern, hypot_of, Answers};

use crate::answer::{root_pattern, special_pattern};
use forms::number_form::NumberForm;
use forms::reading::Reading;
use forms::thousandths::Thousandths;

/// The resultant of two readings: the value nearest to the root of the sum of their squares, over
/// range where that is beyond the largest value. A reading that is missing gives none, unless the
/// other is out of range, which gives over range.
pub fn resultant(x: u32, y: u32) -> u32
    ensures value { result ≡ hypot_pattern thousandths (x ∷ y ∷ []) }
    ensures nearest { Answers thousandths (hypot_of thousandths (x ∷ y ∷ [])) result }
{
    let sides = [Thousandths::read(x), Thousandths::read(y)];
    if let Some(pattern) = special_pattern::<Thousandths>(&sides) {
        return pattern;
    }
    let a = whole_magnitude(x);
    let b = whole_magnitude(y);
    root_pattern::<Thousandths>(a * a + b * b)
}

// The magnitude of a finite reading in thousandths.
fn whole_magnitude(pattern: u32) -> u64
    ensures value { result ≡ magnitude (read_thousandths pattern) }
    ensures bound { result < 2 ^ 31 }
{
    match Thousandths::read(pattern) {
        Reading::Finite { significand, .. } => significand,
        _ => 0,
    }
}

#[cfg(test)]
mod tests {
    use super::*;

    #[test]
    fn finite_readings(rt: HostRuntime) {
        assert_eq!(rt; resultant(3000, 4000), 5000);
        assert_eq!(rt; resultant(0, 0), 0);
        assert_eq!(rt; resultant(1, 1), 1);
        assert_eq!(rt; resultant(1, 0), 1);
        assert_eq!(rt; resultant(0xffff_f448, 4000), 5000);
        assert_eq!(rt; resultant(0x8000_0002, 0), 0x7fff_fffe);
    }

    #[test]
    fn beyond_the_largest(rt: HostRuntime) {
        assert_eq!(rt; resultant(0x7fff_fffe, 0xb504), 0x7fff_fffe);
        assert_eq!(rt; resultant(0x7fff_fffe, 0xb505), 0x7fff_ffff);
        assert_eq!(rt; resultant(0x7fff_fffe, 0x7fff_fffe), 0x7fff_ffff);
    }

    #[test]
    fn special_readings(rt: HostRuntime) {
        assert_eq!(rt; resultant(0x8000_0000, 5), 0x8000_0000);
        assert_eq!(rt; resultant(5, 0x8000_0000), 0x8000_0000);
        assert_eq!(rt; resultant(0x8000_0001, 5), 0x7fff_ffff);
        assert_eq!(rt; resultant(0x8000_0000, 0x8000_0001), 0x7fff_ffff);
        assert_eq!(rt; resultant(0x7fff_ffff, 0x8000_0000), 0x7fff_ffff);
    }
}
