//! The whole way from a proposal to the length: walk, one more digit, location, choice, carry.
//!
//! The floor root has 53 to 55 bits and a precision at most 53, so with one more digit there is a
//! bit to drop. What is dropped and whether the radicand has more than the root's square then tell
//! the side of the half.
ghost use Rattle.std.specs.Prelude.{◌≡◌, ◌-◌, ◌/◌, ◌<◌, ◌≤◌, max, not, ◌&&◌, if◌then◌else◌, ◌==◌, nat_eq};
ghost use Rattle.std.specs.Int.Count.{count_leading_zeros};
ghost use Rattle.exact.specs.Root.{isqrt};
ghost use Rattle.radicand.specs.Stands.{radicand_floor};
ghost use Rattle.walk.specs.Walk.{distance, Walkable};
ghost use Rattle.walk.specs.Rounded.{longer_root, dropped_bits, RoundsTo};

use crate::floor::walk;
use crate::location::{located, nearest};
use radicand::words::Radicand;

/// A root rounded to a precision: `significand * 2^dropped` in units of half the floor root's, or
/// one exponent more after a carry; and the steps of the walk.
#[derive(Clone, Copy, PartialEq, Eq, Debug)]
pub struct Rounded {
    pub significand: u64,
    pub dropped: u32,
    /// a flag and no `Option`, since the significand holds either way
    pub carried: bool,
    pub count: u64,
}

/// The root of a radicand rounded to a precision of 1 to 53 bits, to nearest, ties to even. At least
/// `least` bits are dropped: so many that the last one left is at the least exponent of a form. The
/// proposal must have 54 bits and lie near the root.
pub fn rounded_root(radicand: Radicand, proposal: u64, precision: u32, least: u32) -> Rounded
    requires proposal { Walkable radicand proposal }
    requires bits { radicand.bits < 4 }
    requires precision { (1 ≤ precision) × (precision ≤ 53) }
    ensures count { result.count ≡ distance proposal (isqrt (radicand_floor radicand)) }
    ensures dropped { result.dropped ≡ dropped_bits precision least (longer_root radicand) }
    ensures length { RoundsTo precision least radicand result }
{
    let walked = walk(radicand, proposal);
    let longer = walked.floor.next(radicand.bits);
    let dropped = bits_to_drop(longer.root, precision, least);
    let exact = is_exact(longer.residual, radicand.cut);
    let nearest = nearest(located(longer.root, exact, dropped));
    let (significand, carried) = with_carry(nearest, 1 << precision);
    Rounded {
        significand,
        dropped,
        carried,
        count: walked.count,
    }
}

// How many bits of a root to drop.
fn bits_to_drop(root: u64, precision: u32, least: u32) -> u32
    ensures { result ≡ max (64 - count_leading_zeros 64 root - precision) least }
{
    (64 - root.leading_zeros())
        .saturating_sub(precision)
        .max(least)
}

// Whether a root is exact: its square leaves nothing, and nothing was cut off.
fn is_exact(residual: u64, cut: bool) -> bool
    ensures { result ≡ (residual == 0 && not cut) }
{
    residual == 0 && !cut
}

// A significand that may have reached the limit, and is then half of it, one exponent up; and whether it
// was so.
fn with_carry(significand: u64, limit: u64) -> (u64, bool)
    ensures significand { result.0 ≡ (if nat_eq significand limit then limit / 2 else significand) }
    ensures carried { result.1 ≡ nat_eq significand limit }
{
    if significand == limit {
        (limit / 2, true)
    } else {
        (significand, false)
    }
}

#[cfg(test)]
mod tests {
    use super::*;

    fn rounded(significand: u64, dropped: u32, carried: bool, count: u64) -> Rounded {
        Rounded {
            significand,
            dropped,
            carried,
            count,
        }
    }

    #[test]
    fn ties_go_to_even(rt: HostRuntime) {
        // the root 2^53 + 1 lies in the middle of 2^53 and 2^53 + 2
        let tie = Radicand {
            hi: 1 << 42,
            lo: (1 << 54) + 1,
            bits: 0,
            cut: false,
        };
        assert_eq!(rt;
            rounded_root(tie, 1 << 53, 53, 0),
            rounded(1 << 52, 2, false, 1)
        );
        // and 2^53 + 3 in the middle of 2^53 + 2 and 2^53 + 4
        let next = Radicand {
            hi: 1 << 42,
            lo: 3 * (1 << 54) + 9,
            bits: 0,
            cut: false,
        };
        assert_eq!(rt;
            rounded_root(next, 1 << 53, 53, 0),
            rounded((1 << 52) + 2, 2, false, 3)
        );
    }

    #[test]
    fn what_was_cut_turns_a_tie(rt: HostRuntime) {
        let above = Radicand {
            hi: 1 << 42,
            lo: (1 << 54) + 1,
            bits: 0,
            cut: true,
        };
        assert_eq!(rt;
            rounded_root(above, 1 << 53, 53, 0),
            rounded((1 << 52) + 1, 2, false, 1)
        );
    }

    #[test]
    fn carries(rt: HostRuntime) {
        // the root 2^54 - 1 lies in the middle of 2^54 - 2 and 2^54
        let last = Radicand {
            hi: (1 << 44) - 1,
            lo: u64::MAX - (1 << 55) + 2,
            bits: 0,
            cut: false,
        };
        assert_eq!(rt;
            rounded_root(last, (1 << 54) - 1, 53, 0),
            rounded(1 << 52, 2, true, 0)
        );
    }

    #[test]
    fn least_bits(rt: HostRuntime) {
        // the root 2^53, that is 2^54 with one digit more, at units of its double and of more
        let power = Radicand {
            hi: 1 << 42,
            lo: 0,
            bits: 0,
            cut: false,
        };
        assert_eq!(rt;
            rounded_root(power, 1 << 53, 53, 55),
            rounded(0, 55, false, 0)
        );
        assert_eq!(rt;
            rounded_root(power, 1 << 53, 53, 54),
            rounded(1, 54, false, 0)
        );
        assert_eq!(rt;
            rounded_root(power, 1 << 53, 53, 4000),
            rounded(0, 4000, false, 0)
        );
    }
}
