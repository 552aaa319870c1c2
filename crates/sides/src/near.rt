//! Two sides that are not far from each other: their head, and the same sides by significands.
ghost use Rattle.std.specs.Prelude.{◌≡◌, false, [], ◌∷◌, ◌-◌, ◌<◌, ◌≤◌};
ghost use Rattle.sides.specs.Order.{side_units, is_far};

use crate::side::Side;
use head::of_sides::HeadSides;
use head::side::NearSide;
use head::word::Head;
use radicand::sides::{NearSides, Side as LowerSide};

/// The largest side, which has a length, and another that is not far.
#[derive(Clone, Copy, PartialEq, Eq, Debug)]
pub struct NearPair {
    pub largest: Side,
    pub other: Side,
    ghost some: { 0 < side_units largest },
    ghost order: { side_units other ≤ side_units largest },
    ghost near: { is_far (side_units largest) (side_units other) ≡ false },
}

impl NearPair {
    ghost use Rattle.std.specs.Float.Ieee.{size};
    ghost use Rattle.head.specs.Head.{Heads};
    ghost use Rattle.head.specs.Bound.{NearRoot};
    ghost use Rattle.sides.specs.HeadSum.{sum_in_order};
    ghost use Rattle.sides.specs.Poses.{squares};

    /// The head of the two sides and a third, which is left out where it is far.
    pub fn sum_head(self, third: Side) -> Head
        requires { side_units third ≤ side_units self.largest }
        ensures heads { Heads (sum_in_order (side_units self.largest ∷ side_units self.other ∷ side_units third ∷ [])) result.word result.places }
        ensures near { NearRoot (squares (side_units self.largest ∷ side_units self.other ∷ side_units third ∷ [])) (size (side_units self.largest) - 1) result.word result.places }
        ensures places { (30 ≤ result.places) × (result.places ≤ 31) }
    {
        let sides = self.for_head();
        if third.is_far(self.largest) {
            return sides.two_head();
        }
        let third = NearPair {
            largest: self.largest,
            other: third,
        };
        sides.three_head(third.near_side())
    }

    /// The sides by significands, for a head.
    pub fn for_head(self) -> HeadSides
        ensures largest { result.largest ≡ self.largest.significand }
        ensures other { result.other.significand ≡ self.other.significand }
        ensures below { result.other.below ≡ self.largest.bits - self.other.bits }
    {
        HeadSides {
            largest: self.largest.significand,
            other: self.near_side(),
        }
    }

    /// The sides by significands, for a radicand.
    pub fn for_radicand(self) -> NearSides
        ensures largest { result.largest ≡ self.largest.significand }
        ensures other { result.other.significand ≡ self.other.significand }
        ensures below { result.other.below ≡ self.largest.bits - self.other.bits }
    {
        NearSides {
            largest: self.largest.significand,
            other: self.other.below(self.largest),
        }
    }

    // The other side by its significand, for a head.
    fn near_side(self) -> NearSide
        ensures other { result.significand ≡ self.other.significand }
        ensures below { result.below ≡ self.largest.bits - self.other.bits }
    {
        let lower = self.other.below(self.largest);
        NearSide {
            significand: lower.significand,
            below: lower.below,
        }
    }
}

impl Side {
    // The side by its place below the largest one.
    pub(crate) fn below(self, largest: Side) -> LowerSide
        requires { side_units self ≤ side_units largest }
        ensures significand { result.significand ≡ self.significand }
        ensures below { result.below ≡ largest.bits - self.bits }
    {
        LowerSide {
            significand: self.significand,
            below: largest.bits - self.bits,
        }
    }
}
