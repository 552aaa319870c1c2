//! The parameters of a number form: which magnitudes it holds.
ghost use Rattle.std.specs.Prelude.{◌≡◌, ◌-◌, ◌^◌, ◌<◌, ◌≤◌, ◌↔◌, IsTrue};
ghost use Rattle.exact.specs.Value.{Value};

use crate::length::Magnitude;

/// The magnitudes `significand * 2^exponent` of a form. Exponents are counted from the least one,
/// so they run from 0 to `span`.
#[derive(Clone, Copy, PartialEq, Eq, Debug)]
pub struct Form {
    /// the most bits of a significand
    pub precision: u32,
    /// the least exponent, which exponents are counted from
    pub least: i32,
    /// the largest exponent less the least one
    pub span: u32,
    /// the largest significand at the largest exponent
    pub largest: u64,
}

impl Form {
    /// Whether a magnitude is a value of the form.
    pub fn contains(self, magnitude: Magnitude) -> bool
        ensures { IsTrue result ↔ (Value self magnitude.significand magnitude.exponent) }
    {
        self.reaches(magnitude) && self.fits(magnitude)
    }

    // Whether the exponent, and at the largest exponent the significand, is not too large.
    fn reaches(self, magnitude: Magnitude) -> bool
        ensures { IsTrue result ↔ ((magnitude.exponent ≤ self.span) × (magnitude.exponent ≡ self.span → magnitude.significand ≤ self.largest)) }
    {
        if magnitude.exponent == self.span {
            magnitude.significand <= self.largest
        } else {
            magnitude.exponent < self.span
        }
    }

    // Whether the significand has no bit too many, and above the least exponent none too few.
    fn fits(self, magnitude: Magnitude) -> bool
        ensures { IsTrue result ↔ ((magnitude.significand < 2 ^ self.precision) × (0 < magnitude.exponent → 2 ^ (self.precision - 1) ≤ magnitude.significand)) }
    {
        let bits = 64 - magnitude.significand.leading_zeros();
        bits <= self.precision && (magnitude.exponent == 0 || bits >= self.precision.max(1))
    }
}

#[cfg(test)]
mod tests {
    use super::*;

    #[test]
    fn edges_of_a_form(rt: HostRuntime) {
        let form = Form {
            precision: 3,
            least: -2,
            span: 4,
            largest: 6,
        };
        assert!(rt; form.contains(Magnitude::new(0, 0)));
        assert!(rt; form.contains(Magnitude::new(1, 0)));
        assert!(rt; form.contains(Magnitude::new(7, 3)));
        assert!(rt; !form.contains(Magnitude::new(8, 3)));
        assert!(rt; form.contains(Magnitude::new(4, 1)));
        assert!(rt; !form.contains(Magnitude::new(3, 1)));
        assert!(rt; form.contains(Magnitude::new(6, 4)));
        assert!(rt; !form.contains(Magnitude::new(7, 4)));
        assert!(rt; !form.contains(Magnitude::new(4, 5)));
    }
}
