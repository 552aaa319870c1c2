//! A line that is held in a fixed number of bytes.
ghost use Rattle.std.specs.Prelude.{◌≤◌};

/// How many bytes of a line are kept: one more than the longest line has.
pub(crate) const CAPACITY: usize = 81;

/// The first 81 bytes of a line: what comes behind them is dropped.
// Fixed memory without a heap, and `Copy`, which `arrayvec::ArrayVec` is not; `ArrayString` holds UTF-8 alone.
#[derive(Clone, Copy)]
pub struct LineBuffer {
    pub(crate) bytes: [u8; CAPACITY],
    pub(crate) len: usize,
    ghost within: { len ≤ 81 },
}
