//! Numbers in limbs of 56 bits.
ghost use Rattle.std.specs.Prelude.{◌^◌, ◌<◌};

/// A number with a fraction of one limb: `high * 2^112 + low * 2^56 + part` units of `2^-56`.
#[derive(Clone, Copy, PartialEq, Eq, Debug)]
pub struct Wide {
    pub high: u64,
    pub low: u64,
    pub part: u64,
    ghost limbs: { (high < 2 ^ 56) × (low < 2 ^ 56) × (part < 2 ^ 56) },
}

/// A number after a cut, and whether something was cut off.
#[derive(Clone, Copy, PartialEq, Eq, Debug)]
pub struct Truncated {
    pub wide: Wide,
    pub cut: bool,
}
