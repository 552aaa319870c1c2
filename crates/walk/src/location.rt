//! Where a root lies among the whole numbers, and the choice of the nearest one.
//!
//! The location says all that a rule of rounding can ask: the floor, the side of the half, and
//! whether the root is the floor itself.
ghost use Rattle.std.specs.Prelude.{◌≡◌, ℕ, ◌/◌, ◌^◌, ◌<◌, ◌≤◌};
ghost use Rattle.walk.specs.Location.{FloorToPlaces, Located, side_of_half, located_at, nearest_choice, ChoiceIsNearest};

use std::cmp::Ordering;

/// The side of the middle between a whole number and the next.
#[derive(Clone, Copy, PartialEq, Eq, Debug)]
pub enum Half {
    Below,
    At,
    Above,
}

/// A root among the whole numbers: its floor, its side of the half, and whether it is its floor.
#[derive(Clone, Copy, PartialEq, Eq, Debug)]
pub struct Location {
    pub floor: u64,
    pub half: Half,
    pub exact: bool,
}

/// Locates a root whose last bits are dropped, given as floor root with those bits and whether this
/// is exact. The root must have at most 62 bits, and at least one is dropped.
pub fn located(root: u64, exact: bool, dropped: u32) -> Location
    requires root { root < 2 ^ 62 }
    requires dropped { 1 ≤ dropped }
    ensures floor { result.floor ≡ root / 2 ^ dropped }
    ensures located { (n e : ℕ) → FloorToPlaces n e dropped root exact → Located n e result }
{
    split(root, exact, 1 << (dropped - 1).min(62))
}

// The root among the multiples of twice a half.
fn split(root: u64, exact: bool, half: u64) -> Location
    requires least { 0 < half }
    requires most { half < 2 ^ 63 }
    ensures { result ≡ located_at root exact half }
{
    let tail = root % (2 * half);
    Location {
        floor: root / (2 * half),
        half: side(tail, half, exact),
        exact: tail == 0 && exact,
    }
}

// The side of the half of a tail, or of a little more than it where it is not exact.
fn side(tail: u64, half: u64, exact: bool) -> Half
    ensures { result ≡ side_of_half tail half exact }
{
    match tail.cmp(&half) {
        Ordering::Less => Half::Below,
        Ordering::Equal if exact => Half::At,
        _ => Half::Above,
    }
}

/// The nearest whole number to a root, of two equally near the even one. The floor must leave room
/// for the next number.
pub fn nearest(location: Location) -> u64
    requires { location.floor < 2 ^ 63 }
    ensures { result ≡ nearest_choice location }
{
    match location.half {
        Half::Below => location.floor,
        Half::At => location.floor + location.floor % 2,
        Half::Above => location.floor + 1,
    }
}

/// The choice of `nearest` is the nearest whole number to every root that lies at the location.
pub fn choice_is_nearest()
    ensures { ChoiceIsNearest }
{}

#[cfg(test)]
mod tests {
    use super::*;

    fn location(floor: u64, half: Half, exact: bool) -> Location
        ensures { result.floor ≡ floor }
    {
        Location { floor, half, exact }
    }

    #[test]
    fn sides_of_a_half(rt: HostRuntime) {
        // with two bits dropped: 2, 2.25, 2.5, a little more than that, and 2.75
        assert_eq!(rt; located(8, true, 2), location(2, Half::Below, true));
        assert_eq!(rt; located(9, true, 2), location(2, Half::Below, false));
        assert_eq!(rt; located(10, true, 2), location(2, Half::At, false));
        assert_eq!(rt; located(10, false, 2), location(2, Half::Above, false));
        assert_eq!(rt; located(11, false, 2), location(2, Half::Above, false));
        assert_eq!(rt; located(11, false, 1000), location(0, Half::Below, false));
    }

    #[test]
    fn halves_go_to_even(rt: HostRuntime) {
        assert_eq!(rt; nearest(location(2, Half::Below, false)), 2);
        assert_eq!(rt; nearest(location(2, Half::At, false)), 2);
        assert_eq!(rt; nearest(location(2, Half::Above, false)), 3);
        assert_eq!(rt; nearest(location(3, Half::At, false)), 4);
    }
}
