//! The source that finds the root itself, one binary digit a turn.
//!
//! A turn brings down two bits of the radicand `word * 2^44` and appends one bit to its root: a one
//! where what the root leaves of the radicand still holds `2 * root + 1`.
ghost use Rattle.std.specs.Prelude.{◌≡◌, ◌*◌, ◌^◌};
ghost use Rattle.exact.specs.Root.{isqrt};
ghost use Rattle.sources.specs.Source.{exact_source};
ghost use Rattle.sources.specs.Digits.{exact_sound};

use crate::root_source::RootSource;

/// Proposes the root exactly.
#[derive(Clone, Copy, PartialEq, Eq, Debug)]
pub struct DigitSource;

impl RootSource for DigitSource {
    ghost meaning = { λ _. exact_source };

    ghost sound = { λ s. exact_sound };

    fn grade(&self) -> u32 {
        0
    }

    fn propose(&self, word: u64) -> Option<u64> {
        (word >= 1 << 62).then(|| digit_root(word))
    }
}

// The root of `word`, digit by digit: 54 turns for the 108 bits of its radicand.
fn digit_root(word: u64) -> u64
    ensures { result ≡ isqrt (word * 2 ^ 44) }
{
    let mut root = 0;
    let mut residual = 0;
    let mut left = word;
    for _turn in 0..54_u32 {
        residual = 4 * residual + (left >> 62);
        left <<= 2;
        root *= 2;
        if residual > 2 * root {
            residual -= 2 * root + 1;
            root += 1;
        }
    }
    root
}

#[cfg(test)]
mod tests {
    use super::*;

    #[test]
    fn roots(rt: HostRuntime) {
        assert_eq!(rt; DigitSource.propose(1 << 62), Some(1 << 53));
        assert_eq!(rt; DigitSource.propose(1 << 63), Some(0x2d_413c_ccfe_7799));
        assert_eq!(rt; DigitSource.propose(u64::MAX), Some((1 << 54) - 1));
        assert_eq!(rt; DigitSource.propose((1 << 62) - 1), None);
    }
}
