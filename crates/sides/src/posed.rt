//! A root that is to be found.
use head::word::Head;
use radicand::words::Radicand;

/// The root of a radicand, posed for a source and a walk.
#[derive(Clone, Copy, PartialEq, Eq, Debug)]
pub struct Posed {
    /// the head of the sides
    pub head: Head,
    /// the exact radicand in the scale of the head
    pub radicand: Radicand,
    /// how many bits the largest side has
    pub bits: u32,
}
