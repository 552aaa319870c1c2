//! A radicand in words of the machine.

/// Four times a radicand: `4 * (hi * 2^64 + lo) + bits`, with `bits` below 4, and `cut` where a
/// fraction was cut off. The two bits more are for one more digit of the root.
// That `bits` lies below 4 is no ghost field: a walk takes any bits, and would ask more of its callers.
#[derive(Clone, Copy, PartialEq, Eq, Debug)]
pub struct Radicand {
    pub hi: u64,
    pub lo: u64,
    pub bits: u64,
    pub cut: bool,
}
