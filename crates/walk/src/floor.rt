//! The walk to the floor root.
//!
//! A guess that lies at most 132 from the root has a square less than `2^63` from the radicand. So
//! the difference of the two, the residual, can be taken modulo `2^64` and read as signed.
ghost use Rattle.std.specs.Prelude.{◌≡◌, ◌+◌, ◌-◌, ◌*◌, ◌^◌, ◌<◌, pos, ◌+ℤ◌, ◌<ℤ◌, IsTrue, ◌↔◌};
ghost use Rattle.exact.specs.Root.{isqrt};
ghost use Rattle.radicand.specs.Stands.{radicand_floor};
ghost use Rattle.walk.specs.Walk.{distance, Walkable};

use crate::digit::Rooted;
use radicand::words::Radicand;

/// A floor root with its residual, and the steps that led to it.
#[derive(Clone, Copy, PartialEq, Eq, Debug)]
pub struct Walked {
    pub floor: Rooted,
    pub count: u64,
}

/// Walks from the proposal to the floor root, one unit at a time. The proposal must have 54 bits and
/// lie near the root.
pub fn walk(radicand: Radicand, proposal: u64) -> Walked
    requires { Walkable radicand proposal }
    ensures root { result.floor.root ≡ isqrt (radicand_floor radicand) }
    ensures residual { result.floor.root * result.floor.root + result.floor.residual ≡ radicand_floor radicand }
    ensures count { result.count ≡ distance proposal result.floor.root }
{
    let Radicand { hi, lo, .. } = radicand;
    let mut place = Place {
        guess: proposal,
        residual: lo
            .wrapping_sub(proposal.wrapping_mul(proposal))
            .cast_signed(),
    };
    let root = loop {
        if place.is_too_high() {
            place = place.down();
        } else if place.is_too_low() {
            place = place.up();
        } else {
            break place.guess;
        }
    };
    // Every step leads one unit nearer, so the steps are the distance.
    Walked {
        floor: Rooted {
            root,
            residual: place.residual as u64,
        },
        count: proposal.abs_diff(root),
    }
}

// Where a walk stands: its guess, and the radicand less the square of that. The bound of the guess is no
// ghost field, since the loop's invariant would then name the fields of its place by number.
#[derive(Clone, Copy)]
struct Place {
    guess: u64,
    residual: i64,
}

impl Place {
    // Whether the guess lies above the root: its square is above the radicand.
    fn is_too_high(self) -> bool
        ensures { IsTrue result ↔ (self.residual <ℤ pos 0) }
    {
        self.residual < 0
    }

    // Whether the next number is not above the root: its square takes `2 * guess + 1` more.
    fn is_too_low(self) -> bool
        requires { self.guess < 2 ^ 55 }
        ensures { IsTrue result ↔ (pos (2 * self.guess) <ℤ self.residual) }
    {
        self.residual > 2 * self.guess as i64
    }

    // One step down, from a guess above the root.
    fn down(self) -> Place
        requires above { self.residual <ℤ pos 0 }
        requires least { 0 < self.guess }
        requires most { self.guess < 2 ^ 55 }
        ensures guess { result.guess ≡ self.guess - 1 }
        ensures residual { result.residual ≡ self.residual +ℤ pos (2 * self.guess - 1) }
    {
        Place {
            guess: self.guess - 1,
            residual: self.residual + (2 * self.guess as i64 - 1),
        }
    }

    // One step up, from a guess whose next number is not above the root.
    fn up(self) -> Place
        requires below { pos (2 * self.guess) <ℤ self.residual }
        requires most { self.guess < 2 ^ 55 }
        ensures guess { result.guess ≡ self.guess + 1 }
        ensures residual { result.residual +ℤ pos (2 * self.guess + 1) ≡ self.residual }
    {
        Place {
            guess: self.guess + 1,
            residual: self.residual - (2 * self.guess as i64 + 1),
        }
    }
}

#[cfg(test)]
mod tests {
    use super::*;

    #[test]
    fn one_bit_less(rt: HostRuntime) {
        // the floor root of 2^106 - 1 is 2^53 - 1
        let radicand = Radicand {
            hi: (1 << 42) - 1,
            lo: u64::MAX,
            bits: 0,
            cut: false,
        };
        let walked = walk(radicand, (1 << 53) + 131);
        let floor = Rooted {
            root: (1 << 53) - 1,
            residual: (1 << 54) - 2,
        };
        assert_eq!(rt; walked, Walked { floor, count: 132 });
    }

    #[test]
    fn one_bit_more(rt: HostRuntime) {
        // the root of 2^108 is 2^54
        let radicand = Radicand {
            hi: 1 << 44,
            lo: 0,
            bits: 0,
            cut: false,
        };
        let walked = walk(radicand, (1 << 54) - 100);
        let floor = Rooted {
            root: 1 << 54,
            residual: 0,
        };
        assert_eq!(rt; walked, Walked { floor, count: 100 });
    }
}
