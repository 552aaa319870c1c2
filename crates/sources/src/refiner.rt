//! Refiners: sources that take Newton steps from the proposals of the source below.
//!
//! A step from a guess that lies at most `d` from the root never ends below the root, and above it
//! by at most `(d + 1)^2 / 2^54`, rounded up. So it turns a grade `c` into `2c - 53`, or into 0
//! where `c` is at most 26.
ghost use Rattle.std.specs.Prelude.{◌≡◌, ◌^◌, ◌<◌, ◌≤◌, ◌++◌, IfOk, MatchResult, Some, codes, decimal};
ghost use Rattle.sources.specs.Refined.{word_quotient, refined_guess, refined_grade, repeated, refined};
ghost use Rattle.sources.specs.Refiner.{StepCount, steps_refused};
ghost use Rattle.sources.specs.Refining.{refined_sound};

use crate::root_source::RootSource;
use std::error::Error;
use std::fmt;

/// A source over another one, with one to four steps from each of its proposals.
#[derive(Debug, Drop)]
pub struct Refiner<S> {
    below: S,
    steps: u32,
    ghost counted: { StepCount steps },
}

/// The refusal of a number of steps, with the source that was to be refined.
#[derive(Debug, Drop)]
pub struct StepsRefused<S> {
    pub below: S,
}

impl<S> StepsRefused<S> {
    /// The number of this refusal.
    pub fn number(&self) -> u32
        ensures { result ≡ steps_refused }
    {
        1
    }
}

impl<S> fmt::Display for StepsRefused<S> {
    ghost output = { λ _. Some (codes "refused with " ++ decimal steps_refused) };

    fn fmt<W: fmt::Write>(&self, f: &mut fmt::Formatter<W>) -> fmt::Result {
        write!(f, "refused with {}", self.number())
    }
}

impl<S: fmt::Debug + Drop> Error for StepsRefused<S> {}

impl<S: RootSource> Refiner<S> {
    /// The source below with 1 to 4 steps. Any other number is refused, and the source given back
    /// as it was.
    pub fn new(below: S, steps: u32) -> Result<Refiner<S>, StepsRefused<S>>
        ensures counted { MatchResult result (λ _. StepCount steps) (λ _. StepCount steps → ⊥) }
        ensures source { MatchResult result (λ f. f.below ≡ below) (λ e. e.below ≡ below) }
        ensures steps { IfOk result (λ f. f.steps ≡ steps) }
    {
        if (1..=4).contains(&steps) {
            Ok(Refiner { below, steps })
        } else {
            Err(StepsRefused { below })
        }
    }

    /// The source below, as it was.
    pub fn into_below(self) -> S
        ensures { result ≡ self.below }
    {
        self.below
    }
}

impl<S: RootSource> RootSource for Refiner<S> {
    ghost meaning = { λ s. refined s.steps (S.RootSource.meaning s.below) };

    ghost sound = { λ s. refined_sound s.steps (S.RootSource.meaning s.below) (S.RootSource.sound s.below) };

    fn grade(&self) -> u32 {
        grade_after(self.below.grade(), self.steps)
    }

    fn propose(&self, word: u64) -> Option<u64> {
        let proposal = self.below.propose(word)?;
        Some(guess_after(word, proposal, self.steps))
    }
}

// The grade after a number of steps. Its loop and that of `guess_after` stay two: one function over the
// step would take as facts on a closure what each step requires and keeps, which is no plainer.
fn grade_after(grade: u32, steps: u32) -> u32
    requires { grade ≤ 53 }
    ensures { result ≡ repeated steps refined_grade grade }
{
    let mut after = grade;
    for _step in 0..steps {
        after = step_grade(after);
    }
    after
}

// The grade after a step.
fn step_grade(grade: u32) -> u32
    requires { grade ≤ 53 }
    ensures { result ≡ refined_grade grade }
{
    if grade <= 26 { 0 } else { 2 * grade - 53 }
}

// The guess after a number of steps from a proposal. Word and guess stay two numbers: the invariant of a
// loop over a struct with a ghost field would name its fields by number.
fn guess_after(word: u64, proposal: u64, steps: u32) -> u64
    requires word { 2 ^ 62 ≤ word }
    requires least { 2 ^ 53 ≤ proposal }
    requires most { proposal < 2 ^ 54 }
    ensures { result ≡ repeated steps (refined_guess word) proposal }
{
    let mut guess = proposal;
    for _step in 0..steps {
        guess = step(word, guess);
    }
    guess
}

// A step: the mean of the guess and the word's radicand over it, kept below `2^54`.
fn step(word: u64, guess: u64) -> u64
    requires least { 2 ^ 53 ≤ guess }
    requires most { guess < 2 ^ 54 }
    ensures { result ≡ refined_guess word guess }
{
    let mean = (guess as u128 + quotient(word, guess)) / 2;
    mean.min((1 << 54) - 1) as u64
}

// The radicand `word * 2^44` over the guess.
fn quotient(word: u64, guess: u64) -> u128
    requires { 2 ^ 53 ≤ guess }
    ensures { result ≡ word_quotient word guess }
{
    ((word as u128) << 44) / guess as u128
}

#[cfg(test)]
mod tests {
    use super::*;
    use crate::digit::DigitSource;
    use crate::table::TableSource;
    use std::test::Fail;

    #[test]
    fn grades(rt: HostRuntime) -> Result<(), Fail> {
        assert_eq!(rt; Refiner::new(TableSource, 2)?.grade(), 29);
        assert_eq!(rt; Refiner::new(TableSource, 3)?.grade(), 5);
        assert_eq!(rt; Refiner::new(Refiner::new(TableSource, 1)?, 2)?.grade(), 5);
        Ok(())
    }

    #[test]
    fn refusals(rt: HostRuntime) -> Result<(), Fail> {
        assert!(rt; Refiner::new(TableSource, 0).is_err());
        let refusal = Refiner::new(TableSource, 5).err().ok_or("five steps")?;
        assert_eq!(rt; refusal.number(), 1);
        assert_eq!(rt; refusal.below.grade(), 47);
        Ok(())
    }

    // The grade 0 allows a distance of 1, and a step from the root may take it.
    #[test]
    fn grade_zero_is_not_exact(rt: HostRuntime) -> Result<(), Fail> {
        let word = (1 << 62) + 1024;
        assert_eq!(rt;
            Refiner::new(DigitSource, 1)?.propose(word),
            Some((1 << 53) + 1)
        );
        assert_eq!(rt; Refiner::new(DigitSource, 2)?.propose(word), Some(1 << 53));
        assert_eq!(rt;
            Refiner::new(DigitSource, 3)?.propose(word),
            Some((1 << 53) + 1)
        );
        Ok(())
    }
}
