//! Refusals of columns, each a case with the values that it tells. Nothing of the solver's refusal
//! is lost.
ghost use Rattle.std.specs.Prelude.{◌≡◌};
ghost use Rattle.columns.specs.declared.refusal.ColumnRefusal.TheVariants.{AtEntry};
ghost use Rattle.columns.specs.Refusals.{column_numbered};

use solver::refusal::{CallRefusal, Numbered};

/// The solver's refusal of a column's entry, with the entry's place.
#[derive(Clone, Copy, PartialEq, Eq, Debug)]
pub struct EntryRefused {
    pub place: usize,
    pub refusal: CallRefusal,
}

/// Why a column is refused, or stops.
#[derive(Clone, Copy, PartialEq, Eq, Debug)]
pub enum ColumnRefusal {
    /// the columns differ in length
    DifferentLengths,
    /// there are more than 4,096 entries
    TooManyEntries { entries: usize },
    /// the solver refused an entry; those before it stand
    AtEntry { refused: EntryRefused },
}

impl ColumnRefusal {
    /// The number of this refusal, and what it tells.
    // No `From`, which is no plainer, as in `solver`.
    pub fn numbered(self) -> Numbered
        ensures { result ≡ column_numbered self }
    {
        match self {
            ColumnRefusal::DifferentLengths => Numbered {
                number: 5,
                place: None,
                value: None,
            },
            ColumnRefusal::TooManyEntries { entries } => Numbered {
                number: 6,
                place: None,
                value: Some(entries as u64),
            },
            ColumnRefusal::AtEntry { refused } => Numbered {
                place: Some(refused.place),
                ..refused.refusal.numbered()
            },
        }
    }
}

impl From<EntryRefused> for ColumnRefusal {
    ghost from_gives = { λ entry r. r ≡ AtEntry entry };

    fn from(entry: EntryRefused) -> ColumnRefusal {
        ColumnRefusal::AtEntry { refused: entry }
    }
}
