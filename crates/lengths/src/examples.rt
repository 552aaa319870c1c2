//! Worked examples, as one theorem on the definitions.
ghost use Rattle.lengths.specs.Examples.{WorkedExamples};

/// Each worked example comes out as it should: plain triples, ties, carries, the edges of the forms
/// and the special cases.
pub fn worked_examples()
    ensures { WorkedExamples }
{}
