//! From limbs to words: a number in the scale of a head.
ghost use Rattle.std.specs.Prelude.{◌≡◌, ℕ, ◌+◌, ◌*◌, ◌^◌, ◌<◌, ◌≤◌};
ghost use Rattle.radicand.specs.Limbs.{units, Counts, Held};
ghost use Rattle.radicand.specs.Sides.{head_scaled, denominator};
ghost use Rattle.radicand.specs.Stands.{Stands, radicand_floor};

use crate::sides::HeadScale;
use crate::wide::Truncated;
use crate::words::Radicand;

/// The words of a number of squares of significands, in the scale of a head, for a caller who knows that
/// the words hold it.
///
/// Four times a radicand is `4^(places - 29)` times its number of squares, so one of it is
/// `2^(114 - 2 * places)` units.
pub fn scaled(number: Truncated, scale: HeadScale) -> Radicand
    requires { Held number scale.places }
    ensures { (x d : ℕ) → Counts number x d → Stands result (head_scaled x scale.places) (denominator d) }
{
    worded(number.lower(114 - 2 * scale.places))
}

// Whole units in words.
fn worded(over: Truncated) -> Radicand
    requires { units over.wide < 2 ^ 130 }
    ensures floor { units over.wide ≡ 4 * radicand_floor result + result.bits }
    ensures bits { result.bits < 4 }
    ensures cut { result.cut ≡ over.cut }
{
    let wide = over.wide;
    Radicand {
        hi: wide.high * (1 << 46) + wide.low / (1 << 10),
        lo: wide.low % (1 << 10) * (1 << 54) + wide.part / 4,
        bits: wide.part % 4,
        cut: over.cut,
    }
}
