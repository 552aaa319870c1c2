//! The root source that divides floats.
//!
//! A line gives a first guess, and Newton steps square the relative error: that of the guess's
//! square is at most 1/8, then 1/120, 2^-14, 2^-28 and 24/2^54, where the roundings of the last step
//! are what is left. So the root of 54 bits is off by at most 15.
#![tactic(auto)]

ghost use Rattle.std.specs.Prelude.{◌≡◌, ◌^◌, ◌≤◌};
ghost use Rattle.float_source.specs.FloatProposal.{
  Held,
  upper,
  lower,
  first_guess,
  mean,
  stepped,
  last_step,
  improved,
  scaled,
  InRange,
  cut,
  float_proposal,
  float_source,
};
ghost use Rattle.float_source.specs.Proposals.{float_sound};

use floats::double_double::DoubleDouble;
use sources::root_source::RootSource;
use std::num::truncating_f64_to_u64;

/// A root source that holds the word exactly as a pair of floats and improves a first guess by float
/// division. Its grade is 4. Which proposal it makes is a free choice within that: any other within
/// 16 of the root would serve as well, and it is pinned only so that it is one for each word.
#[derive(Clone, Copy, PartialEq, Eq, Debug)]
pub struct FloatSource;

impl RootSource for FloatSource {
    ghost meaning = { λ _. float_source };

    ghost sound = { λ s. float_sound };

    fn grade(&self) -> u32 {
        4
    }

    fn propose(&self, word: u64) -> Option<u64> {
        (word >= 1 << 62).then(|| proposal(word))
    }
}

// The proposal for a word.
fn proposal(word: u64) -> u64
    requires { 2 ^ 62 ≤ word }
    ensures { result ≡ float_proposal word }
{
    let parts = held(word);
    let root = improve(guess(word), parts);
    cut_root(root)
}

// The word exactly, as the float nearest to it and what that lacks.
fn held(word: u64) -> DoubleDouble
    requires { 2 ^ 62 ≤ word }
    ensures { Held word result.hi result.lo }
{
    DoubleDouble::from_exact_add(upper_half(word), lower_half(word))
}

// The upper 32 bits of the word, in their place.
fn upper_half(word: u64) -> f64
    ensures { result ≡ upper word }
{
    (word / 0x1_0000_0000) as f64 * 4294967296.0
}

// The lower 32 bits of the word.
fn lower_half(word: u64) -> f64
    ensures { result ≡ lower word }
{
    (word % 0x1_0000_0000) as f64
}

// A guess whose square is within an eighth of the word: a line in the word.
fn guess(word: u64) -> f64
    ensures { result ≡ first_guess word }
{
    ((word / 0x8000_0000 + 0x1_0000_0000) / 3) as f64
}

// Four steps, the last with both parts of the word.
fn improve(guess: f64, word: DoubleDouble) -> f64
    ensures { result ≡ improved guess word.hi word.lo }
{
    let first = step(guess, word.hi);
    let second = step(first, word.hi);
    let third = step(second, word.hi);
    step_by_both(third, word)
}

// A Newton step for the root of `t`.
fn step(x: f64, t: f64) -> f64
    ensures { result ≡ stepped x t }
{
    half_sum(x, t / x)
}

// A Newton step for the root of a word in two parts.
fn step_by_both(x: f64, word: DoubleDouble) -> f64
    ensures { result ≡ last_step x word.hi word.lo }
{
    half_sum(x, word.hi / x + word.lo / x)
}

// The mean of a guess and a quotient.
fn half_sum(x: f64, q: f64) -> f64
    ensures { result ≡ mean x q }
{
    (x + q) * 0.5
}

// The root times `2^22`, as a whole number of 54 bits.
fn cut_root(root: f64) -> u64
    requires { InRange (scaled root) }
    ensures { result ≡ cut root }
{
    let whole = truncating_f64_to_u64(root * 4194304.0);
    whole.clamp(1 << 53, (1 << 54) - 1)
}

#[cfg(test)]
mod tests {
    use super::*;
    use sources::refiner::Refiner;
    use std::test::Fail;

    fn distance(word: u64, root: u64) -> Result<u64, Fail> {
        let proposal = FloatSource.propose(word).ok_or("no proposal")?;
        Ok(proposal.abs_diff(root))
    }

    #[test]
    fn near_the_roots(rt: HostRuntime) -> Result<(), Fail> {
        assert_eq!(rt; FloatSource.propose((1 << 62) - 1), None);
        assert!(rt; distance(1 << 62, 1 << 53)? <= 16);
        assert!(rt; distance(1 << 63, 0x2d_413c_ccfe_7799)? <= 16);
        assert!(rt; distance(u64::MAX, (1 << 54) - 1)? <= 16);
        Ok(())
    }

    #[test]
    fn grades(rt: HostRuntime) -> Result<(), Fail> {
        assert_eq!(rt; FloatSource.grade(), 4);
        assert_eq!(rt; Refiner::new(FloatSource, 1)?.grade(), 0);
        Ok(())
    }
}
