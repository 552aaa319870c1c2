//! The radicand of a call, from its sides.
//!
//! A side is a significand of 53 bits, and by how many binary places its leading bit lies below that of
//! the largest side. In the scale of the largest side a radicand is then a sum, or a difference,
//! of `significand^2 / 4^below`. Squares that lie at most 28 places below are whole in units of `2^-56`;
//! of one that lies farther, all that is lost is told by one bit.
ghost use Rattle.std.specs.Prelude.{◌≡◌, ℕ, ◌+◌, ◌*◌, ◌^◌, ◌<◌, ◌≤◌};

use crate::limbs::squared;
use crate::scale::scaled;
use crate::wide::{Truncated, Wide};
use crate::words::Radicand;

/// A side that is not the largest.
// No side of the crate `head`: a radicand asks less, since a significand need not have all 53 bits, and a third
// side may lie at any distance.
#[derive(Clone, Copy, PartialEq, Eq, Debug)]
pub struct Side {
    pub significand: u64,
    /// how many binary places it lies below the largest side
    pub below: u32,
    ghost short: { significand < 2 ^ 53 },
}

/// The largest side and a near one, which lies at most 28 places below.
#[derive(Clone, Copy, PartialEq, Eq, Debug)]
pub struct NearSides {
    /// the significand of the largest side
    pub largest: u64,
    pub other: Side,
    ghost short: { largest < 2 ^ 53 },
    ghost near: { other.below ≤ 28 },
}

/// The scale of a head: how often its word is to be quartered.
#[derive(Clone, Copy, PartialEq, Eq, Debug)]
pub struct HeadScale {
    pub places: u32,
    ghost least: { 30 ≤ places },
    ghost most: { places ≤ 57 },
}

impl NearSides {
    ghost use Rattle.radicand.specs.Limbs.{units, Counts, Held};
    ghost use Rattle.radicand.specs.Sides.{two_squares, three_squares, leg_square, head_scaled, denominator};
    ghost use Rattle.radicand.specs.Stands.{Stands};

    /// The radicand of the two sides, in the scale of a head of 30 or 31 places.
    pub fn sum_of_two(self, scale: HeadScale) -> Radicand
        requires { scale.places ≤ 31 }
        ensures { Stands result (head_scaled (two_squares self.largest self.other.significand self.other.below) scale.places) (denominator self.other.below) }
    {
        scaled(self.two_squares(), scale)
    }

    /// The radicand of the two sides and a third at any distance, in the scale of a head of 30 or 31 places.
    pub fn sum_of_three(self, third: Side, scale: HeadScale) -> Radicand
        requires { scale.places ≤ 31 }
        ensures { Stands result (head_scaled (three_squares self.largest self.other.significand self.other.below third.significand third.below) scale.places) (denominator (self.other.below + third.below)) }
    {
        // a third side of no length adds nothing, as in every hypotenuse over two legs
        if third.significand == 0 {
            return self.sum_of_two(scale);
        }
        scaled(self.three_squares(third), scale)
    }

    /// The radicand of a leg, for a caller whose largest side is the hypotenuse and longer than the other
    /// leg, in the scale of a head at which the words hold it.
    pub fn difference(self, scale: HeadScale) -> Radicand
        requires longer { self.other.significand < self.largest * 2 ^ self.other.below }
        requires held { head_scaled (leg_square self.largest self.other.significand self.other.below) scale.places < 2 ^ 130 * denominator self.other.below }
        ensures { Stands result (head_scaled (leg_square self.largest self.other.significand self.other.below) scale.places) (denominator self.other.below) }
    {
        scaled(self.leg_square(), scale)
    }

    // The sum of the squares of the two sides.
    fn two_squares(self) -> Truncated
        ensures value { Counts result (two_squares self.largest self.other.significand self.other.below) self.other.below }
        ensures held { (places : ℕ) → places ≤ 31 → Held result places }
    {
        Truncated {
            wide: self.near_sum(),
            cut: false,
        }
    }

    // The sum of the squares of the two sides and a third, the only one that can be cut.
    fn three_squares(self, third: Side) -> Truncated
        ensures value { Counts result (three_squares self.largest self.other.significand self.other.below third.significand third.below) (self.other.below + third.below) }
        ensures held { (places : ℕ) → places ≤ 31 → Held result places }
    {
        let square = squared(third.significand).far(third.below);
        self.near_sum().plus_cut(square)
    }

    // The square of the hypotenuse less that of the leg.
    fn leg_square(self) -> Truncated
        requires { self.other.significand < self.largest * 2 ^ self.other.below }
        ensures value { Counts result (leg_square self.largest self.other.significand self.other.below) self.other.below }
        ensures held { (places : ℕ) → places ≤ 57 → head_scaled (leg_square self.largest self.other.significand self.other.below) places < 2 ^ 130 * denominator self.other.below → Held result places }
    {
        Truncated {
            wide: squared(self.largest) - self.near_square(),
            cut: false,
        }
    }

    // The sum of the two squares, which is whole in units.
    fn near_sum(self) -> Wide
        ensures value { units result * 4 ^ self.other.below ≡ two_squares self.largest self.other.significand self.other.below * 2 ^ 56 }
        ensures bound { units result < 2 ^ 163 }
    {
        squared(self.largest) + self.near_square()
    }

    // The square of the near side, which is whole in units.
    fn near_square(self) -> Wide
        ensures { units result * 4 ^ self.other.below ≡ self.other.significand * self.other.significand * 2 ^ 56 }
    {
        squared(self.other.significand)
            .lower(2 * self.other.below)
            .wide
    }
}

#[cfg(test)]
mod tests {
    use super::*;

    const ONE: u64 = 1 << 52;

    const SIDE: Side = Side {
        significand: ONE,
        below: 0,
    };

    const SCALE: HeadScale = HeadScale { places: 31 };

    fn radicand(hi: u64, lo: u64, cut: bool) -> Radicand {
        Radicand {
            hi,
            lo,
            bits: 0,
            cut,
        }
    }

    fn beside_one(other: Side) -> NearSides
        requires { other.below ≤ 28 }
        ensures { (result.largest ≡ 2 ^ 52) × (result.other ≡ other) }
    {
        NearSides {
            largest: ONE,
            other,
        }
    }

    #[test]
    fn two_equal_sides(rt: HostRuntime) {
        // 2 * 4^53 is the radicand of 1 and 1 at 31 places
        assert_eq!(rt;
            beside_one(SIDE).sum_of_two(SCALE),
            radicand(1 << 43, 0, false)
        );
    }

    #[test]
    fn the_leg_of_five_and_four(rt: HostRuntime) {
        // 9 / 16 in the scale of the hypotenuse, so (3 * 2^52)^2 at 32 places
        let sides = NearSides {
            largest: 5 << 50,
            other: SIDE,
        };
        assert_eq!(rt;
            sides.difference(HeadScale { places: 32 }),
            radicand(9 << 40, 0, false)
        );
    }

    #[test]
    fn a_side_at_the_edge_is_cut(rt: HostRuntime) {
        let edge = Side {
            significand: 2 * ONE - 1,
            below: 28,
        };
        assert_eq!(rt;
            beside_one(edge).sum_of_two(SCALE),
            radicand(1 << 42, ONE - 1, true)
        );
    }

    #[test]
    fn a_far_third_side_is_only_a_cut(rt: HostRuntime) {
        let far = Side {
            significand: ONE,
            below: u32::MAX,
        };
        assert_eq!(rt;
            beside_one(SIDE).sum_of_three(far, SCALE),
            radicand(1 << 43, 0, true)
        );
    }
}
