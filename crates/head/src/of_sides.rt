//! The head of two or three sides, and how near its root is to that of the exact radicand.
//!
//! One rounding errs by at most 2^-53 of its result, and errors add up along the operations. In the sum
//! of two squares two roundings stand behind every term, which is less than 5 * 2^-54; in the sum of
//! three, and in a difference as a product, there are three, which is less than 7 * 2^-54. A third
//! side below 2^-27 of the largest has a square below 2^-54 of its, so leaving it out makes 6 * 2^-54 of
//! two. The word itself is exact. A root halves the relative error: the root of a word, taken to 54 bits,
//! lies less than 4 from that of the exact radicand, and the floors of both at most 4 apart.
//!
//! The types of sides see to it that each significand has 53 bits, and that no side of a head lies more
//! than 28 places below the largest.
ghost use Rattle.std.specs.Prelude.{◌≡◌, ◌+◌, ◌*◌, ◌^◌, ◌<◌, ◌≤◌};
ghost use Rattle.head.specs.Side.{Full, scaled_side};
ghost use Rattle.head.specs.Squares.{two_radicand, three_radicand, leg_radicand};
ghost use Rattle.head.specs.Head.{Heads};
ghost use Rattle.head.specs.Bound.{two_exact, three_exact, leg_exact, NearRoot, NearWithoutThird};

use super::side::NearSide;
use super::squares::{difference, sum_of_three, sum_of_two};
use super::word::{Head, head_word};

/// The largest side and another, near it.
#[derive(Clone, Copy, PartialEq, Eq, Debug)]
pub struct HeadSides {
    /// the significand of the largest side
    pub largest: u64,
    pub other: NearSide,
    ghost full: { Full largest },
}

impl HeadSides {
    /// The head of two sides. It serves three as well, where the third lies below 2^-27 of the largest.
    pub fn two_head(self) -> Head
        ensures heads { Heads (two_radicand self.largest self.other.significand self.other.below) result.word result.places }
        ensures near { NearRoot (two_exact self.largest self.other.significand self.other.below) (52 + self.other.below) result.word result.places }
        ensures far { NearWithoutThird self.largest self.other.significand self.other.below result.word result.places }
        ensures places { (30 ≤ result.places) × (result.places ≤ 31) }
    {
        head_word(self.two_sides())
    }

    /// The head of three sides.
    pub fn three_head(self, third: NearSide) -> Head
        ensures heads { Heads (three_radicand self.largest self.other.significand self.other.below third.significand third.below) result.word result.places }
        ensures near { NearRoot (three_exact self.largest self.other.significand self.other.below third.significand third.below) (52 + self.other.below + third.below) result.word result.places }
        ensures places { (30 ≤ result.places) × (result.places ≤ 31) }
    {
        head_word(self.three_sides(third))
    }

    /// The head of a leg, where the largest side is the hypotenuse and the other leg is less.
    pub fn leg_head(self) -> Head
        requires { self.other.significand < self.largest * 2 ^ self.other.below }
        ensures heads { Heads (leg_radicand self.largest self.other.significand self.other.below) result.word result.places }
        ensures near { NearRoot (leg_exact self.largest self.other.significand self.other.below) (52 + self.other.below) result.word result.places }
        ensures places { result.places ≤ 57 }
        ensures least { 30 ≤ result.places }
    {
        head_word(self.leg_sides())
    }

    // The float radicand of two sides.
    fn two_sides(self) -> f64
        ensures { result ≡ two_radicand self.largest self.other.significand self.other.below }
    {
        sum_of_two(self.scaled_largest(), self.other.scaled())
    }

    // The float radicand of three sides.
    fn three_sides(self, third: NearSide) -> f64
        ensures { result ≡ three_radicand self.largest self.other.significand self.other.below third.significand third.below }
    {
        sum_of_three(self.scaled_largest(), self.other.scaled(), third.scaled())
    }

    // The float radicand of a leg.
    fn leg_sides(self) -> f64
        ensures { result ≡ leg_radicand self.largest self.other.significand self.other.below }
    {
        difference(self.scaled_largest(), self.other.scaled())
    }

    // The largest side as a float.
    fn scaled_largest(self) -> f64
        ensures { result ≡ scaled_side self.largest 0 }
    {
        let largest = NearSide {
            significand: self.largest,
            below: 0,
        };
        largest.scaled()
    }
}

#[cfg(test)]
mod tests {
    use super::*;

    const ONE: u64 = 0x10_0000_0000_0000;

    fn head(word: u64, places: u32) -> Head {
        Head { word, places }
    }

    #[test]
    fn one_and_one(rt: HostRuntime) {
        // 1 + 1 = 2^63 / 4^31
        let other = NearSide {
            significand: ONE,
            below: 0,
        };
        let sides = HeadSides {
            largest: ONE,
            other,
        };
        assert_eq!(rt; sides.two_head(), head(0x8000_0000_0000_0000, 31));
    }

    #[test]
    fn one_half_and_half(rt: HostRuntime) {
        // 1 + 1/4 + 1/4 = 3 * 2^61 / 4^31
        let half = NearSide {
            significand: ONE,
            below: 1,
        };
        let sides = HeadSides {
            largest: ONE,
            other: half,
        };
        assert_eq!(rt; sides.three_head(half), head(0x6000_0000_0000_0000, 31));
    }

    #[test]
    fn five_and_four(rt: HostRuntime) {
        // 5/4 and 1: the leg's square is 9/16 = 9 * 2^60 / 4^32
        let leg = NearSide {
            significand: ONE,
            below: 0,
        };
        let sides = HeadSides {
            largest: 0x14_0000_0000_0000,
            other: leg,
        };
        assert_eq!(rt; sides.leg_head(), head(0x9000_0000_0000_0000, 32));
    }

    #[test]
    fn closest_leg(rt: HostRuntime) {
        // 1 and the float below it
        let leg = NearSide {
            significand: 0x1f_ffff_ffff_ffff,
            below: 1,
        };
        let sides = HeadSides {
            largest: ONE,
            other: leg,
        };
        assert_eq!(rt; sides.leg_head(), head(1 << 62, 57));
    }
}
