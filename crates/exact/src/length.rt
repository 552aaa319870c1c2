//! The length of a root whose radicand fits one word, by a whole-number root.
//!
//! The floor of twice the root, in units of the last place, and whether it is exact tell on which
//! side of a half the root lies; so the length needs no more than one floor root.
ghost use Rattle.std.specs.Prelude.{◌≡◌, ◌*◌, ◌^◌, ◌<◌, ◌≤◌, max};
ghost use Rattle.exact.specs.Length.{Length, half_to_even, nearer_root, rounded_root};

/// The number `significand * 2^exponent`, with the exponent counted from the least one.
#[derive(Clone, Copy, PartialEq, Eq, Debug)]
pub struct Magnitude {
    pub significand: u64,
    pub exponent: u32,
}

impl Magnitude {
    pub fn new(significand: u64, exponent: u32) -> Magnitude
        ensures significand { result.significand ≡ significand }
        ensures exponent { result.exponent ≡ exponent }
    {
        Magnitude {
            significand,
            exponent,
        }
    }
}

/// The root of `n` rounded to `precision` bits, to nearest, ties to even. A precision of 0 is taken
/// as 1.
pub fn length(precision: u32, n: u64) -> Magnitude
    ensures { Length (max precision 1) n result.significand result.exponent }
{
    length_at(precision.max(1), n)
}

// The same at a precision of at least one bit.
fn length_at(precision: u32, n: u64) -> Magnitude
    requires { 1 ≤ precision }
    ensures { Length precision n result.significand result.exponent }
{
    let bits = 64 - n.leading_zeros();
    let exponent = bits.div_ceil(2).saturating_sub(precision);
    let significand = rounded(n, exponent);
    // One bit too many: the next power of two, one exponent up.
    if precision < 64 && significand == 1 << precision {
        Magnitude {
            significand: 1 << (precision - 1),
            exponent: exponent + 1,
        }
    } else {
        Magnitude::new(significand, exponent)
    }
}

// The nearest whole number to the root of `n` in units of `2^exponent`.
fn rounded(n: u64, exponent: u32) -> u64
    requires { exponent ≤ 32 }
    ensures { result ≡ rounded_root n exponent }
{
    if exponent == 0 {
        return nearest_root(n);
    }
    let dropped = 2 * (exponent - 1);
    let twice = (n >> dropped).isqrt();
    round_half(twice, twice * twice << dropped == n)
}

// The nearest whole number to the root of `n`, which never lies halfway between two.
fn nearest_root(n: u64) -> u64
    ensures { result ≡ rounded_root n 0 }
{
    nearer(n, n.isqrt())
}

// The floor root of `n`, or the next number where the root lies nearer to that.
fn nearer(n: u64, floor: u64) -> u64
    requires square { floor * floor ≤ n }
    requires bound { floor < 2 ^ 32 }
    ensures { result ≡ nearer_root n floor }
{
    let residual = n - floor * floor;
    if residual > floor { floor + 1 } else { floor }
}

// Half of `twice`, or of a little more where that is not exact, to the nearest whole number, at a tie
// to the even one.
fn round_half(twice: u64, exact: bool) -> u64
    requires { twice < 2 ^ 63 }
    ensures { result ≡ half_to_even twice exact }
{
    let floor = twice / 2;
    if twice % 2 == 0 || exact && floor % 2 == 0 {
        floor
    } else {
        floor + 1
    }
}

#[cfg(test)]
mod tests {
    use super::*;

    #[test]
    fn exact_roots(rt: HostRuntime) {
        assert_eq!(rt; length(31, 0), Magnitude::new(0, 0));
        assert_eq!(rt; length(31, 25), Magnitude::new(5, 0));
        assert_eq!(rt;
            length(53, 0xffff_fffe_0000_0001),
            Magnitude::new(0xffff_ffff, 0)
        );
        assert_eq!(rt; length(2, 64), Magnitude::new(2, 2));
    }

    #[test]
    fn ties_go_to_even(rt: HostRuntime) {
        // roots 5, 7 and 11 with two bits: 2.5 goes down, 3.5 carries up, and 2.75 is no tie
        assert_eq!(rt; length(2, 25), Magnitude::new(2, 1));
        assert_eq!(rt; length(2, 49), Magnitude::new(2, 2));
        assert_eq!(rt; length(2, 121), Magnitude::new(3, 2));
        // one more in the radicand takes the root above the half
        assert_eq!(rt; length(2, 26), Magnitude::new(3, 1));
    }

    #[test]
    fn halves_never_meet_at_the_least_exponent(rt: HostRuntime) {
        // the root of 2 lies below 1.5, that of 3 above
        assert_eq!(rt; length(31, 2), Magnitude::new(1, 0));
        assert_eq!(rt; length(31, 3), Magnitude::new(2, 0));
        assert_eq!(rt; length(53, u64::MAX), Magnitude::new(0x1_0000_0000, 0));
        assert_eq!(rt; length(32, u64::MAX), Magnitude::new(0x8000_0000, 1));
    }
}
