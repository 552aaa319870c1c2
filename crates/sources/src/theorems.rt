//! The theorems on how far proposals lie from the root, each asked for by the contract of a
//! function.
ghost use Rattle.sources.specs.Table.{TableReach};
ghost use Rattle.sources.specs.Refined.{StepError};
ghost use Rattle.sources.specs.Examples.{ProposesRoot, WorkedProposals};

/// A table's proposal is never above the root, and at most `2^46 + 2^40` below it.
pub fn table_reach()
    ensures { TableReach }
{}

/// A step never ends below the root, and above it by at most `(d + 1)^2 / 2^54`, rounded up, where
/// it starts at most `d` from the root.
pub fn step_error()
    ensures { StepError }
{}

/// The digit source proposes the root, and the worked proposals come out.
pub fn worked_proposals()
    ensures root { ProposesRoot }
    ensures worked { WorkedProposals }
{}
