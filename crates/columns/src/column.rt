//! The lengths of two columns of sides, entry by entry.
ghost use Rattle.std.specs.Prelude.{◌≡◌, length};
ghost use Rattle.solver.specs.Serving.{call_result, after_call};
ghost use Rattle.solver.specs.Log.{Logs, told_call};
ghost use Rattle.columns.specs.Column.{call_of, at_place, entries, checked_shape, column_of, left_by};
ghost use Rattle.columns.specs.ColumnLog.{told_column};
ghost use Rattle.columns.specs.Examples.{WorkedColumns};

use crate::refusal::{ColumnRefusal, EntryRefused};
use forms::number_form::NumberForm;
use lengths::call::{Call, Measured};
use solver::states::Sealed;
use sources::root_source::RootSource;

/// The length calls of two sides, as a column makes them.
// An enum and no closure: a closure would ask a caller to show that it may be called.
#[derive(Clone, Copy, PartialEq, Eq, Debug)]
pub enum Operation {
    Hypot,
    Cathetus,
}

impl Operation {
    /// The call of this operation; for a cathetus the hypotenuse comes first.
    pub fn call<P>(self, x: P, y: P) -> Call<P>
        ensures { result ≡ call_of self x y }
    {
        match self {
            Operation::Hypot => Call::Hypot { x, y },
            Operation::Cathetus => Call::Cathetus {
                hypotenuse: x,
                leg: y,
            },
        }
    }
}

/// Makes the calls of two columns of sides, entry by entry, and writes a column of lengths and one
/// of counts. Columns that differ in length are refused, then more than 4,096 entries, before
/// anything is written. At an entry that the solver refuses the column stops: earlier entries stand,
/// and later ones keep their contents.
// Four slices and no struct: they are lent by the caller, two to read and two to write, for this one call.
pub fn length_column<F: NumberForm, R: RootSource>(
    solver: &mut Sealed<F, R>,
    operation: Operation,
    xs: &[F::Pattern],
    ys: &[F::Pattern],
    lengths: &mut [F::Pattern],
    counts: &mut [u64],
) -> Result<(), ColumnRefusal>
    ensures value { left_by lengths.new counts.new solver.new result ≡ column_of F.NumberForm.encoding R.RootSource.meaning operation solver.old xs.now ys.now lengths.old counts.old }
    ensures log { Logs F.NumberForm.encoding R.RootSource.meaning solver.old (told_column operation xs.now ys.now lengths.new counts.new result) solver.new }
{
    check_shape(xs, ys, lengths, counts)?;
    fill(solver, operation, xs, ys, lengths, counts)
}

// Refuses columns that differ in length or have too many entries.
fn check_shape<P>(xs: &[P], ys: &[P], lengths: &[P], counts: &[u64]) -> Result<(), ColumnRefusal>
    ensures { result ≡ checked_shape xs.now ys.now lengths.now counts.now }
{
    if ys.len() != xs.len() || lengths.len() != xs.len() || counts.len() != xs.len() {
        return Err(ColumnRefusal::DifferentLengths);
    }
    if xs.len() > 4096 {
        return Err(ColumnRefusal::TooManyEntries { entries: xs.len() });
    }
    Ok(())
}

// The entries of columns of one length, up to the first that is refused.
fn fill<F: NumberForm, R: RootSource>(
    solver: &mut Sealed<F, R>,
    operation: Operation,
    xs: &[F::Pattern],
    ys: &[F::Pattern],
    lengths: &mut [F::Pattern],
    counts: &mut [u64],
) -> Result<(), ColumnRefusal>
    requires sides { length ys.now ≡ length xs.now }
    requires lengths { length lengths.old ≡ length xs.now }
    requires counts { length counts.old ≡ length xs.now }
    ensures value { left_by lengths.new counts.new solver.new result ≡ entries F.NumberForm.encoding R.RootSource.meaning operation 0 solver.old xs.now ys.now lengths.old counts.old }
    ensures log { Logs F.NumberForm.encoding R.RootSource.meaning solver.old (told_column operation xs.now ys.now lengths.new counts.new result) solver.new }
{
    // By index: a column call is a loop over the elements of one slice with their index. Zipping `ys` is no
    // plainer, since the index stays for the place and for both columns that are written.
    for (i, x) in xs.iter().enumerate() {
        let measured = measured_at(i, solver, operation.call(*x, ys[i]))?;
        lengths[i] = measured.pattern;
        counts[i] = measured.count;
    }
    Ok(())
}

// The length of the call at a place of its column, or its refusal, which takes the place with it.
fn measured_at<F: NumberForm, R: RootSource>(
    place: usize,
    solver: &mut Sealed<F, R>,
    call: Call<F::Pattern>,
) -> Result<Measured<F::Pattern>, EntryRefused>
    ensures value { result ≡ at_place place (call_result F.NumberForm.encoding R.RootSource.meaning solver.old call) }
    ensures after { solver.new ≡ after_call F.NumberForm.encoding R.RootSource.meaning solver.old call }
    ensures log { Logs F.NumberForm.encoding R.RootSource.meaning solver.old (told_call call (call_result F.NumberForm.encoding R.RootSource.meaning solver.old call)) solver.new }
{
    solver
        .measure(call)
        .map_err(|refusal| EntryRefused { place, refusal })
}

/// The calls of worked columns have the lengths that they should have: in a cathetus column the hypotenuse comes
/// first.
pub fn worked_columns()
    ensures { WorkedColumns }
{}
