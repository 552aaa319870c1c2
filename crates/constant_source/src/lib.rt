//! The coarsest root source: it always proposes `2^53`, the least root of a word, so its grade is
//! 53. Steps of a refiner cannot better that grade.
#![tactic(auto)]

ghost use Rattle.std.specs.Prelude.{◌≡◌, ℕ};
ghost use Rattle.sources.specs.Refined.{refined};
ghost use Rattle.constant_source.specs.Constant.{constant_source};
ghost use Rattle.constant_source.specs.Constants.{constant_sound};

use sources::root_source::RootSource;

/// Proposes `2^53` for every word.
#[derive(Clone, Copy, PartialEq, Eq, Debug)]
pub struct ConstantSource;

impl RootSource for ConstantSource {
    ghost meaning = { λ _. constant_source };

    ghost sound = { λ s. constant_sound };

    fn grade(&self) -> u32 {
        53
    }

    fn propose(&self, word: u64) -> Option<u64> {
        (word >= 1 << 62).then_some(1 << 53)
    }
}

/// No number of steps betters the grade 53.
pub fn steps_keep_the_grade()
    ensures { (steps : ℕ) → (refined steps constant_source).grade ≡ 53 }
{}

#[cfg(test)]
mod tests {
    use super::*;
    use sources::refiner::Refiner;
    use std::test::Fail;

    #[test]
    fn four_steps(rt: HostRuntime) -> Result<(), Fail> {
        assert_eq!(rt; Refiner::new(ConstantSource, 4)?.grade(), 53);
        Ok(())
    }
}
