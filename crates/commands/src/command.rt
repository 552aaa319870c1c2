//! What a line asks for.
ghost use Rattle.std.specs.Prelude.{◌≡◌};
ghost use Rattle.commands.specs.Letters.{operation_of, form_of, field_count};

use solver::log::Request;

/// What the first letter of a line names.
#[derive(Clone, Copy, PartialEq, Eq, Debug)]
pub enum Operation {
    Hypot,
    Cathetus,
    ThreeSides,
    NewScan,
}

impl Operation {
    /// The operation that a letter names.
    // No `TryFrom<u8>`: its error would say no more than `None`.
    pub(crate) fn of_letter(letter: u8) -> Option<Operation>
        ensures { result ≡ operation_of letter }
    {
        match letter {
            b'H' => Some(Operation::Hypot),
            b'L' => Some(Operation::Cathetus),
            b'T' => Some(Operation::ThreeSides),
            b'N' => Some(Operation::NewScan),
            _ => None,
        }
    }

    /// How many fields stand behind the letters.
    pub(crate) fn fields(self) -> usize
        ensures { result ≡ field_count self }
    {
        match self {
            Operation::Hypot | Operation::Cathetus => 2,
            Operation::ThreeSides => 3,
            Operation::NewScan => 0,
        }
    }
}

/// What the second letter of a line names: the number form of its patterns.
#[derive(Clone, Copy, PartialEq, Eq, Debug)]
pub enum FormName {
    Binary64,
    Binary32,
    Thousandths,
}

impl FormName {
    /// The form that a letter names.
    // No `TryFrom<u8>`: its error would say no more than `None`.
    pub(crate) fn of_letter(letter: u8) -> Option<FormName>
        ensures { result ≡ form_of letter }
    {
        match letter {
            b'd' => Some(FormName::Binary64),
            b's' => Some(FormName::Binary32),
            b'm' => Some(FormName::Thousandths),
            _ => None,
        }
    }
}

/// What a line asks for: a request to the solver of the form that it names.
#[derive(Clone, Copy, PartialEq, Eq, Debug)]
pub enum Command {
    Binary64(Request<u64>),
    Binary32(Request<u32>),
    Thousandths(Request<u32>),
}
