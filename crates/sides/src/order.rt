//! The order of sides, and which of them are far.
//!
//! With their significands brought to full length, sides are in the order of their bits, and at equal
//! bits in the order of their significands.
ghost use Rattle.std.specs.Prelude.{◌≡◌, cond, [], ◌∷◌, ◌⊎◌, nat_lt, ◌==◌, eqb, ltb};
ghost use Rattle.sides.specs.Order.{side_units, descending, is_far};
ghost use Rattle.sides.specs.Listed.{ordered_units};

use crate::ordered::Ordered;
use crate::side::Side;
use std::cmp::Reverse;

impl Side {
    /// Whether this side has no length.
    pub fn is_zero(self) -> bool
        ensures { result ≡ (side_units self == 0) }
    {
        self.significand == 0
    }

    /// Whether this side is shorter than another.
    #[tactic(auto, using(crate::proofs::Orders::shorter_by_parts))]
    pub fn is_shorter(self, other: Side) -> bool
        ensures { result ≡ nat_lt (side_units self) (side_units other) }
    {
        is_lower(self.key(), other.key())
    }

    /// Whether this side is far beside the largest one: less than 2^-27 of it.
    #[tactic(auto, using(crate::proofs::Orders::far_by_parts))]
    pub fn is_far(self, largest: Side) -> bool
        ensures { result ≡ is_far (side_units largest) (side_units self) }
    {
        if self.is_zero() {
            return !largest.is_zero();
        }
        is_lower((self.bits + 27, self.significand), largest.key())
    }

    // What sides are in the order of.
    fn key(self) -> (u32, u64)
        ensures { result ≡ (self.bits, self.significand) }
    {
        (self.bits, self.significand)
    }
}

// Whether the first of two numbers is the lower, by bits and then by significands.
fn is_lower(number: (u32, u64), other: (u32, u64)) -> bool
    ensures { result ≡ cond (eqb number.0 other.0) (ltb number.1 other.1) (ltb number.0 other.0) }
{
    number < other
}

/// Three sides in descending order.
pub fn descending(a: Side, b: Side, c: Side) -> Ordered
    ensures sorted { ordered_units result ≡ descending (side_units a ∷ side_units b ∷ side_units c ∷ []) }
    ensures first { (result.first.magnitude ≡ a.magnitude) ⊎ ((result.first.magnitude ≡ b.magnitude) ⊎ (result.first.magnitude ≡ c.magnitude)) }
{
    let mut sides = [a, b, c];
    sides.sort_unstable_by_key(|side| Reverse(side.key()));
    let [first, second, third] = sides;
    Ordered {
        first,
        second,
        third,
    }
}
