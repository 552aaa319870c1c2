//! The theorem on the lengths of calls.
ghost use Rattle.forms.specs.Encoding.{Encoding, Lawful};
ghost use Rattle.sources.specs.Source.{Source, Sound};
ghost use Rattle.lengths.specs.Right.{RightLengths};

/// In every lawful form and with every sound source, of any grade: a call's pattern is the one that
/// answers for its sides, far ones included; its count is the distance from the proposal for the
/// head to the floor root, zero in plain cases, and at most `2^grade + 4`; and its pattern is the
/// same with any other source.
pub fn lengths_are_right<P>()
    ensures { (encoding : Encoding P) (source : Source) → Lawful encoding → Sound source → RightLengths encoding source }
{}
