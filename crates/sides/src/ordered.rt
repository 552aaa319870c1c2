//! Three sides in descending order.
ghost use Rattle.std.specs.Prelude.{◌≤◌};
ghost use Rattle.sides.specs.Order.{side_units};

use crate::side::Side;

/// Three sides, the longest first.
#[derive(Clone, Copy, PartialEq, Eq, Debug)]
pub struct Ordered {
    pub first: Side,
    pub second: Side,
    pub third: Side,
    ghost order: { (side_units second ≤ side_units first) × (side_units third ≤ side_units second) },
}
