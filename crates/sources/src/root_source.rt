//! The trait of root sources.
ghost use Rattle.std.specs.Prelude.{◌≡◌};
ghost use Rattle.sources.specs.Source.{Source, Sound, proposed};

/// A source of proposals for the root of a word, the largest whole number whose square is at most
/// `word * 2^44`. What code may use of a source is its law and what it answers.
pub trait RootSource {
    ghost meaning: { Self → Source };

    /// The grade `c`: proposals lie at most `2^c` from the root.
    fn grade(&self) -> u32
        ensures { result ≡ (meaning self.now).grade };

    /// The proposal for a word, or nothing for one below `2^62`.
    fn propose(&self, word: u64) -> Option<u64>
        ensures { result ≡ proposed (meaning self.now) word };

    ghost sound: { (s : Self) → Sound (meaning s) };
}
