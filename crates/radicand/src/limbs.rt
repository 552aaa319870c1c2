//! Arithmetic in limbs: exact squares, sums and differences, and cuts that tell whether they lost
//! something.
//!
//! A significand of 53 bits is two parts of at most 27, so a product of parts fits one word, and so does
//! any sum of a few limbs of 56 bits.
ghost use Rattle.std.specs.Prelude.{◌≡◌, ℕ, ◌+◌, ◌*◌, ◌%◌, ◌^◌, ◌<◌, ◌≤◌, not, ◌==◌};
ghost use Rattle.radicand.specs.Limbs.{units};
ghost use Rattle.radicand.specs.Truncation.{Truncates};

use crate::wide::{Truncated, Wide};
use std::ops::{Add, Sub};

const PART: u64 = 1 << 27;

const LIMB: u64 = 1 << 56;

/// The exact square of a significand, which has at most 53 bits.
pub fn squared(m: u64) -> Wide
    requires { m < 2 ^ 53 }
    ensures { units result ≡ m * m * 2 ^ 56 }
{
    let a = m / PART;
    let b = m % PART;
    let square = a * a;
    let cross = a * b;
    let low = b * b + cross % (2 * PART) * (2 * PART) + square % 4 * (LIMB / 4);
    let high = square / 4 + cross / (2 * PART) + low / LIMB;
    Wide {
        high,
        low: low % LIMB,
        part: 0,
    }
}

/// The sum, with its carries, for a caller who knows that the limbs hold it.
impl Add for Wide {
    type Output = Wide;

    ghost can_add = { λ a b. units a + units b < 2 ^ 168 };

    ghost add_gives = { λ a b r. units r ≡ units a + units b };

    fn add(self, rhs: Wide) -> Wide {
        let part = self.part + rhs.part;
        let low = self.low + rhs.low + part / LIMB;
        let high = self.high + rhs.high + low / LIMB;
        Wide {
            high,
            low: low % LIMB,
            part: part % LIMB,
        }
    }
}

/// The difference, with its borrows, for a caller who knows that what is taken away is not the larger.
impl Sub for Wide {
    type Output = Wide;

    ghost can_sub = { λ a b. units b ≤ units a };

    ghost sub_gives = { λ a b r. units r + units b ≡ units a };

    fn sub(self, rhs: Wide) -> Wide {
        let part = self.part + LIMB - rhs.part;
        let low = self.low + LIMB - rhs.low - (1 - part / LIMB);
        let high = self.high - rhs.high - (1 - low / LIMB);
        Wide {
            high,
            low: low % LIMB,
            part: part % LIMB,
        }
    }
}

impl Wide {
    /// The number over `2^by`, cut to whole units; `by` is at most a limb.
    #[tactic(auto, using(crate::proofs::Shifts::limb))]
    pub fn lower(self, by: u32) -> Truncated
        requires { by ≤ 56 }
        ensures { Truncates (units result.wide) result.cut (units self) (2 ^ by) }
    {
        let below = 1 << by;
        let above = 1 << (56 - by);
        let over = Wide {
            high: self.high / below,
            low: self.high % below * above + self.low / below,
            part: self.low % below * above + self.part / below,
        };
        Truncated {
            wide: over,
            cut: has_rest(self.part, below),
        }
    }

    /// The number over `4^places`, cut to whole units, for any `places`: beyond 84 no unit is left.
    pub fn far(self, places: u32) -> Truncated
        ensures { Truncates (units result.wide) result.cut (units self) (4 ^ places) }
    {
        self.lower(2 * places.min(28))
            .lower(2 * places.saturating_sub(28).min(28))
            .lower(2 * places.saturating_sub(56).min(28))
    }

    /// The sum of a whole number of units and one that may be cut: cut where that one is.
    pub fn plus_cut(self, number: Truncated) -> Truncated
        requires { units self + units number.wide < 2 ^ 168 }
        ensures sum { units result.wide ≡ units self + units number.wide }
        ensures cut { result.cut ≡ number.cut }
    {
        Truncated {
            wide: self + number.wide,
            cut: number.cut,
        }
    }
}

impl Truncated {
    /// The number over `2^by`, cut once more to whole units; `by` is at most a limb.
    pub fn lower(self, by: u32) -> Truncated
        requires { by ≤ 56 }
        ensures over { (v m : ℕ) → Truncates (units self.wide) self.cut v m → Truncates (units result.wide) result.cut v (m * 2 ^ by) }
        ensures bound { units result.wide * 2 ^ by ≤ units self.wide }
    {
        let over = self.wide.lower(by);
        Truncated {
            wide: over.wide,
            cut: self.cut | over.cut,
        }
    }
}

// Whether `below` does not divide the limb.
fn has_rest(limb: u64, below: u64) -> bool
    requires { 0 < below }
    ensures { result ≡ not (limb % below == 0) }
{
    limb % below != 0
}
