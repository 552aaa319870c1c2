//! The length of a posed root: a proposal for its head word, the walk to the floor root, one rounding,
//! and the pattern of that.
ghost use Rattle.std.specs.Prelude.{◌≡◌, ℕ, ◌^◌, ◌≤◌, Float};
ghost use Rattle.sides.specs.Poses.{Poses};
ghost use Rattle.walk.specs.Rounded.{after_carry};
ghost use Rattle.lengths.specs.LengthOf.{root_length};
ghost use Rattle.lengths.specs.Posed.{PosedRoot};

use crate::call::Measured;
use exact::length::Magnitude;
use forms::number_form::NumberForm;
use sides::posed::Posed;
use sources::root_source::RootSource;
use triangle::answer::written_or_infinity;
use walk::rounded::rounded_root;

/// The pattern and the count of a posed root, for inner callers, whose source has a grade of at most
/// 7.
pub fn root_length<F: NumberForm, R: RootSource>(source: &R, posed: Posed) -> Measured<F::Pattern>
    requires graded { (R.RootSource.meaning source.now).grade ≤ 7 }
    requires posed { PosedRoot posed }
    ensures { (h : Float) (n largest : ℕ) → Poses h n largest posed → result ≡ root_length F.NumberForm.encoding (R.RootSource.meaning source.now) h n largest }
{
    let proposal = proposal_for(source, posed.head.word);
    let unit = 24 + posed.head.places;
    let least = unit.saturating_sub(posed.bits);
    let rounded = rounded_root(posed.radicand, proposal, F::form().precision, least);
    let exponent = carry(posed.bits + rounded.dropped - unit, rounded.carried);
    let magnitude = Magnitude {
        significand: rounded.significand,
        exponent,
    };
    Measured {
        pattern: written_or_infinity::<F>(magnitude),
        count: rounded.count,
    }
}

// The exponent, one more after a carry.
fn carry(exponent: u32, carried: bool) -> u32
    requires { exponent ≤ 5000 }
    ensures { result ≡ after_carry carried exponent }
{
    exponent + u32::from(carried)
}

// The source's proposal for a head word, which is never below 2^62.
fn proposal_for<R: RootSource>(source: &R, word: u64) -> u64
    requires { 2 ^ 62 ≤ word }
    ensures { result ≡ (R.RootSource.meaning source.now).proposal word }
{
    source.propose(word).unwrap()
}
