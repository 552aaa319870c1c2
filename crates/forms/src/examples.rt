//! Worked readings, as one theorem on the definitions of the three forms.
ghost use Rattle.forms.specs.Examples.{WorkedReadings};

/// Patterns of known numbers read as those numbers, and the ends of each form are where they should
/// be.
pub fn worked_readings()
    ensures { WorkedReadings }
{}
