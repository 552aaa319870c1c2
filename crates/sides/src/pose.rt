//! From sides to a head word and an exact radicand in its scale.
//!
//! A far third side is left out of the head, though not of the radicand.
ghost use Rattle.std.specs.Prelude.{◌≡◌, false, ◌<◌};
ghost use Rattle.sides.specs.Order.{side_units, is_far};
ghost use Rattle.sides.specs.Listed.{ordered_units};
ghost use Rattle.sides.specs.HeadSum.{sum_in_order, head_difference};
ghost use Rattle.sides.specs.Poses.{squares, squares_apart, posed_with, Poses};

use crate::near::NearPair;
use crate::ordered::Ordered;
use crate::posed::Posed;
use crate::side::Side;
use head::word::Head;
use radicand::sides::HeadScale;
use radicand::words::Radicand;

/// The root of the sum of the squares of three sides, for inner callers, whose second side is not far.
pub fn pose_sum(sides: Ordered) -> Posed
    requires some { 0 < side_units sides.first }
    requires near { is_far (side_units sides.first) (side_units sides.second) ≡ false }
    ensures { Poses (sum_in_order (ordered_units sides)) (squares (ordered_units sides)) (side_units sides.first) result }
{
    let pair = NearPair {
        largest: sides.first,
        other: sides.second,
    };
    let head = pair.sum_head(sides.third);
    let scale = HeadScale {
        places: head.places,
    };
    let third = sides.third.below(sides.first);
    let radicand = pair.for_radicand().sum_of_three(third, scale);
    with_head(sides.first, head, radicand)
}

/// The root of the difference of the squares of a hypotenuse and a leg, for inner callers, whose leg is
/// shorter and not far.
pub fn pose_leg(hypotenuse: Side, leg: Side) -> Posed
    requires shorter { side_units leg < side_units hypotenuse }
    requires near { is_far (side_units hypotenuse) (side_units leg) ≡ false }
    ensures { Poses (head_difference (side_units hypotenuse) (side_units leg)) (squares_apart (side_units hypotenuse) (side_units leg)) (side_units hypotenuse) result }
{
    let pair = NearPair {
        largest: hypotenuse,
        other: leg,
    };
    let head = pair.for_head().leg_head();
    let scale = HeadScale {
        places: head.places,
    };
    let radicand = pair.for_radicand().difference(scale);
    with_head(hypotenuse, head, radicand)
}

// A head and a radicand in its scale.
fn with_head(largest: Side, head: Head, radicand: Radicand) -> Posed
    ensures { result ≡ posed_with largest.bits head radicand }
{
    Posed {
        head,
        radicand,
        bits: largest.bits,
    }
}
