//! Refusals, each a case with the values that it tells. A definition gives every case its number.
ghost use Rattle.std.specs.Prelude.{◌≡◌, Some};
ghost use Rattle.solver.specs.Sealing.{SealingLimits};
ghost use Rattle.solver.specs.Refusals.{seal_numbered, call_numbered, numbered_text};

use std::fmt;

/// Why a sealing is refused.
#[derive(Clone, Copy, PartialEq, Eq, Debug)]
pub enum SealRefusal {
    /// the grade of the source is above 7
    Grade { grade: u32 },
    /// the allowance is less than a call may take, or above 1,000,000
    Allowance { allowance: u64 },
}

/// Why a length call is refused.
#[derive(Clone, Copy, PartialEq, Eq, Debug)]
pub enum CallRefusal {
    /// fewer steps are left than a call may take
    TooFewSteps { steps_left: u64 },
}

/// A refusal as it is told to a reader: its number, with the place and the value, if any. Code goes by
/// the cases and not by the number.
// Made by the refusals' public methods `numbered`, and by no `From`: `Numbered::from(refusal)` is no plainer
// than `refusal.numbered()`.
#[derive(Clone, Copy, PartialEq, Eq, Debug)]
pub struct Numbered {
    pub number: u32,
    pub place: Option<usize>,
    pub value: Option<u64>,
}

/// The number, then the place and the value where they are told.
impl fmt::Display for Numbered {
    ghost output = { λ refusal. Some (numbered_text refusal) };

    fn fmt<W: fmt::Write>(&self, f: &mut fmt::Formatter<W>) -> fmt::Result {
        write!(f, "refusal {}", self.number)?;
        if let Some(place) = self.place {
            write!(f, " at {place}")?;
        }
        if let Some(value) = self.value {
            write!(f, " ({value})")?;
        }
        Ok(())
    }
}

impl SealRefusal {
    /// The number of this refusal, and what it tells.
    pub fn numbered(self) -> Numbered
        ensures { result ≡ seal_numbered self }
    {
        match self {
            SealRefusal::Grade { grade } => Numbered {
                number: 2,
                place: None,
                value: Some(grade as u64),
            },
            SealRefusal::Allowance { allowance } => Numbered {
                number: 3,
                place: None,
                value: Some(allowance),
            },
        }
    }
}

impl CallRefusal {
    /// The number of this refusal, and what it tells.
    pub fn numbered(self) -> Numbered
        ensures { result ≡ call_numbered self }
    {
        match self {
            CallRefusal::TooFewSteps { steps_left } => Numbered {
                number: 4,
                place: None,
                value: Some(steps_left),
            },
        }
    }
}

/// Sealings reach to their limits of grade and allowance, and not past them; the grade is looked at first.
pub fn sealing_limits()
    ensures { SealingLimits }
{}
