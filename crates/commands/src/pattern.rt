//! Patterns as lines spell them.
ghost use Rattle.std.specs.Prelude.{◌≡◌, ℕ, ◌^◌, ◌<◌, ◌≤◌};
ghost use Rattle.commands.specs.declared.pattern.PatternBits.{PatternBits};
ghost use Rattle.commands.specs.declared.pattern.PatternBits.TheVariants.{Bits64, Bits32};
ghost use Rattle.std.proofs.Common.{rules};

/// A pattern with its width.
#[derive(Clone, Copy, PartialEq, Eq, Debug)]
pub enum PatternBits {
    Bits64(u64),
    Bits32(u32),
}

impl From<u64> for PatternBits {
    ghost from_gives = { λ pattern bits. bits ≡ Bits64 pattern };

    fn from(pattern: u64) -> PatternBits {
        PatternBits::Bits64(pattern)
    }
}

impl From<u32> for PatternBits {
    ghost from_gives = { λ pattern bits. bits ≡ Bits32 pattern };

    fn from(pattern: u32) -> PatternBits {
        PatternBits::Bits32(pattern)
    }
}

/// A pattern type that is spelt at full width, in a number of hexadecimal digits of its own.
pub trait HexPattern: Copy + Into<PatternBits> {
    /// How many digits spell a pattern.
    const DIGITS: usize;

    ghost DIGITS: { ℕ };

    ghost pattern: { ℕ → Self };

    ghost written: { Self → PatternBits };

    /// The pattern that digits spell, from their number.
    fn from_number(number: u64) -> Self
        requires { number < 16 ^ DIGITS }
        ensures { result ≡ pattern number };

    ghost narrow: { DIGITS ≤ 16 };

    ghost into_bits: { (p : Self) (bits : PatternBits) → Self.converts p bits → bits ≡ written p };
}

impl HexPattern for u64 {
    const DIGITS: usize = u64::BITS as usize / 4;

    ghost DIGITS = { 16 };

    ghost pattern = { λ number. number };

    ghost written = { Bits64 };

    ghost narrow = { Prim.search rules };

    ghost into_bits = { λ _ _ is. is };

    fn from_number(number: u64) -> u64 {
        number
    }
}

impl HexPattern for u32 {
    const DIGITS: usize = u32::BITS as usize / 4;

    ghost DIGITS = { 8 };

    ghost pattern = { λ number. number };

    ghost written = { Bits32 };

    ghost narrow = { Prim.search rules };

    ghost into_bits = { λ _ _ is. is };

    fn from_number(number: u64) -> u32 {
        number as u32
    }
}
