//! A finite side.
ghost use Rattle.std.specs.Prelude.{◌≡◌, ◌^◌, ◌<◌, ◌≤◌};
ghost use Rattle.exact.specs.Value.{units};
ghost use Rattle.sides.specs.Sized.{Sized};

use exact::length::Magnitude;
use head::side::full_length;

/// A finite side: its magnitude, and the same brought to full length.
#[derive(Clone, Copy, PartialEq, Eq, Debug)]
pub struct Side {
    pub magnitude: Magnitude,
    /// the significand moved up to 53 bits; zero for a side of no length
    pub significand: u64,
    /// how many bits the magnitude has, counted in units of the least exponent
    pub bits: u32,
    ghost sized: { Sized (units magnitude.significand magnitude.exponent) significand bits },
}

impl Side {
    /// The side of a magnitude, for inner callers, whose magnitudes are values of a form: they have at
    /// most 53 bits and an exponent of at most 4,000.
    pub fn new(magnitude: Magnitude) -> Side
        requires short { magnitude.significand < 2 ^ 53 }
        requires low { magnitude.exponent ≤ 4000 }
        ensures { result.magnitude ≡ magnitude }
    {
        if magnitude.significand == 0 {
            return Side {
                magnitude,
                significand: 0,
                bits: 0,
            };
        }
        let full = full_length(magnitude.significand);
        Side {
            magnitude,
            significand: full.significand,
            bits: magnitude.exponent + 53 - full.moved,
        }
    }
}
