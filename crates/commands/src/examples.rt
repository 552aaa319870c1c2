//! Worked lines, answers and inputs, as theorems of the definitions.
ghost use Rattle.commands.specs.Examples.{WorkedLines, WorkedAnswers, WorkedInputs};

/// The worked lines, answers and inputs come out.
pub fn worked_text()
    ensures lines { WorkedLines }
    ensures answers { WorkedAnswers }
    ensures inputs { WorkedInputs }
{}
