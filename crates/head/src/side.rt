//! Sides as floats, from significands of 53 bits.
ghost use Rattle.std.specs.Prelude.{◌≡◌, ◌*◌, ◌^◌, ◌<◌, ◌≤◌};
ghost use Rattle.head.specs.Side.{Full, scaled_side, side_pattern};

/// A significand of exactly 53 bits, and by how many binary places it was moved up.
#[derive(Clone, Copy, PartialEq, Eq, Debug)]
pub struct FullSignificand {
    pub significand: u64,
    pub moved: u32,
    ghost full: { Full significand },
}

/// A short significand with its leading bit brought to place 52. For inner callers, which see to it
/// that `k` is not zero and below 2^53.
pub fn full_length(k: u64) -> FullSignificand
    requires some { 0 < k }
    requires short { k < 2 ^ 53 }
    ensures value { result.significand ≡ k * 2 ^ result.moved }
    ensures bound { result.moved ≤ 52 }
{
    // a significand may be moved up by all but 11 of the zeros above its leading bit
    let moved = k.leading_zeros() - 11;
    FullSignificand {
        significand: k << moved,
        moved,
    }
}

/// A side near the largest one: `significand * 2^-(52 + below)`, with a significand of exactly 53 bits,
/// where the largest side lies from 1 to 2.
#[derive(Clone, Copy, PartialEq, Eq, Debug)]
pub struct NearSide {
    pub significand: u64,
    /// how many binary places its leading bit lies below that of the largest side
    pub below: u32,
    ghost full: { Full significand },
    ghost close: { below ≤ 28 },
}

impl NearSide {
    /// The side as a float.
    pub fn scaled(self) -> f64
        ensures { result ≡ scaled_side self.significand self.below }
    {
        f64::from_bits(self.pattern())
    }

    // The bit pattern of the scaled side.
    fn pattern(self) -> u64
        ensures { result ≡ side_pattern self.significand self.below }
    {
        u64::from(1022 - self.below) * 0x10_0000_0000_0000 + self.significand
    }
}

#[cfg(test)]
mod tests {
    use super::*;

    #[test]
    fn short(rt: HostRuntime) {
        let three = FullSignificand {
            significand: 0x18_0000_0000_0000,
            moved: 51,
        };
        assert_eq!(rt; full_length(3), three);
    }
}
