//! A number as an unevaluated sum of two floats, and the exact sum of two floats as such a pair.
//!
//! What a rounded sum lacks is a float itself: a multiple of the last place of the smaller term, and no
//! larger than that term. So a few more sums and differences find it without error.
ghost use Rattle.std.specs.Prelude.{◌≡◌, ◌≤◌, unsigned_abs};
ghost use Rattle.std.specs.Float.Ieee as Ieee;
ghost use Rattle.std.specs.Float.{binary64};
ghost use Rattle.floats.specs.Units.{units, Moderate};
ghost use Rattle.floats.specs.ExactSum.{ExactSum, lost_of_b, lost};

use std::ops::Neg;

/// A number as an unevaluated sum of two floats.
#[derive(Clone, Copy, PartialEq, Debug)]
pub struct DoubleDouble {
    pub hi: f64,
    pub lo: f64,
}

// The two terms of a sum stay two parameters: a pair of floats is what a sum gives, and not what it takes.
impl DoubleDouble {
    /// The exact sum of `a` and `b`, where `a` is no smaller in size. For inner callers, which see to
    /// that, and that both are finite and at most 2^1000 in size.
    pub fn from_exact_add(a: f64, b: f64) -> DoubleDouble
        requires first { Moderate a }
        requires second { Moderate b }
        requires ordered { unsigned_abs (units b) ≤ unsigned_abs (units a) }
        ensures { ExactSum a b result.hi result.lo }
    {
        sum_and_loss_of_b(a, b)
    }

    /// The exact sum of `a` and `b` in either order, with no branch. For inner callers, which see to it
    /// that both are finite and at most 2^1000 in size.
    pub fn from_full_exact_add(a: f64, b: f64) -> DoubleDouble
        requires first { Moderate a }
        requires second { Moderate b }
        ensures { ExactSum a b result.hi result.lo }
    {
        sum_and_loss(a, b)
    }
}

/// The same number with the other sign.
impl Neg for DoubleDouble {
    type Output = DoubleDouble;

    ghost neg_gives = { λ a r. (r.hi ≡ Ieee.neg a.hi) × (r.lo ≡ Ieee.neg a.lo) };

    fn neg(self) -> DoubleDouble {
        DoubleDouble {
            hi: -self.hi,
            lo: -self.lo,
        }
    }
}

// The rounded sum, and what it lost of `b`. Where `a` is no smaller, nothing is lost of `a`.
fn sum_and_loss_of_b(a: f64, b: f64) -> DoubleDouble
    ensures high { result.hi ≡ Ieee.add binary64 a b }
    ensures low { result.lo ≡ lost_of_b a b }
{
    let hi = a + b;
    let from_b = hi - a;
    DoubleDouble { hi, lo: b - from_b }
}

// The rounded sum, and what it lost of `a` and `b` together.
fn sum_and_loss(a: f64, b: f64) -> DoubleDouble
    ensures high { result.hi ≡ Ieee.add binary64 a b }
    ensures low { result.lo ≡ lost a b }
{
    let hi = a + b;
    let from_b = hi - a;
    let from_a = hi - from_b;
    let lost_b = b - from_b;
    let lost_a = a - from_a;
    DoubleDouble {
        hi,
        lo: lost_b + lost_a,
    }
}

#[cfg(test)]
mod tests {
    use super::*;
    use std::num::f64_to_bits_with_nan;

    // 2^-60, 2^53, 2^1000 and the smallest positive float
    const TINY: f64 = 8.673617379884035e-19;

    const FULL: f64 = 9007199254740992.0;

    const LARGE: f64 = 1.0715086071862673e301;

    const LEAST: f64 = 5e-324;

    // By bits, since `==` takes zeros of unlike signs as equal.
    fn same(x: f64, y: f64) -> bool {
        f64_to_bits_with_nan(x) == f64_to_bits_with_nan(y)
    }

    fn is(sum: DoubleDouble, hi: f64, lo: f64) -> bool {
        same(sum.hi, hi) && same(sum.lo, lo)
    }

    #[test]
    fn larger_term_first(rt: HostRuntime) {
        let above = DoubleDouble::from_exact_add(1.0, TINY);
        assert!(rt; is(above, 1.0, TINY));
        let under = DoubleDouble::from_exact_add(1.0, -TINY);
        assert!(rt; is(under, 1.0, -TINY));
        let tie = DoubleDouble::from_exact_add(FULL, 1.0);
        assert!(rt; is(tie, FULL, 1.0));
        let cancelled = DoubleDouble::from_exact_add(-3.0, 2.0);
        assert!(rt; is(cancelled, -1.0, 0.0));
    }

    #[test]
    fn smaller_term_first(rt: HostRuntime) {
        let above = DoubleDouble::from_full_exact_add(TINY, 1.0);
        assert!(rt; is(above, 1.0, TINY));
        let under = DoubleDouble::from_full_exact_add(-TINY, 1.0);
        assert!(rt; is(under, 1.0, -TINY));
        let tie = DoubleDouble::from_full_exact_add(1.0, FULL);
        assert!(rt; is(tie, FULL, 1.0));
        // The rounded sum less the first term is not a float here.
        let inexact = DoubleDouble::from_full_exact_add(21.5, 4503599627370499.0);
        assert!(rt; is(inexact, 4503599627370520.0, 0.5));
    }

    #[test]
    fn least_and_largest(rt: HostRuntime) {
        let zero = DoubleDouble::from_full_exact_add(0.0, -0.0);
        assert!(rt; is(zero, 0.0, 0.0));
        let below = DoubleDouble::from_full_exact_add(-0.0, -0.0);
        assert!(rt; is(below, -0.0, 0.0));
        let subnormal = DoubleDouble::from_full_exact_add(LEAST, LEAST);
        assert!(rt; is(subnormal, 1e-323, 0.0));
        let wide = DoubleDouble::from_full_exact_add(LEAST, -LARGE);
        assert!(rt; is(wide, -LARGE, LEAST));
        let doubled = DoubleDouble::from_full_exact_add(LARGE, LARGE);
        assert!(rt; is(doubled, 2.0 * LARGE, 0.0));
    }

    #[test]
    fn other_sign(rt: HostRuntime) {
        let pair = DoubleDouble { hi: 1.0, lo: -TINY };
        assert!(rt; is(-pair, -1.0, TINY));
        let whole = DoubleDouble { hi: 1.0, lo: 0.0 };
        assert!(rt; is(-whole, -1.0, -0.0));
    }
}
