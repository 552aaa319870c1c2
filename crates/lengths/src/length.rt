//! The length of a call: plain cases first, then the root of the exact radicand.
//!
//! A hypotenuse over two sides is the resultant of these and a third side of no length.
//!
//! All functions here are inlined: so a call whose kind is known does no work for the other kinds,
//! and one in a plain case has no place for a posed root to clear and to copy.
ghost use Rattle.std.specs.Prelude.{◌≡◌, ◌≤◌, [], ◌∷◌, Some, None};
ghost use Rattle.std.specs.ControlFlow.{MatchControlFlow};
ghost use Rattle.lengths.specs.Asked.{sum_of, difference_of, asked};
ghost use Rattle.lengths.specs.LengthOf.{length_of};
ghost use Rattle.lengths.specs.Posed.{PosedUnlessPlain};

use crate::call::{Call, Measured};
use crate::finite::{FiniteSide, SideReading};
use crate::plain::{plain_leg, plain_sum, special_leg, special_sum};
use crate::root::root_length;
use forms::number_form::NumberForm;
use sides::order::descending;
use sides::pose::{pose_leg, pose_sum};
use sides::posed::Posed;
use sources::root_source::RootSource;
use std::marker::PhantomData;
use std::ops::ControlFlow;

/// The pattern and the count of a call, in any form, with any source of a grade of at most 7. The bound
/// is for inner callers; every pattern is accepted.
#[inline(always)]
pub fn length_of<F: NumberForm, R: RootSource>(
    source: &R,
    call: Call<F::Pattern>,
) -> Measured<F::Pattern>
    requires graded { (R.RootSource.meaning source.now).grade ≤ 7 }
    ensures value { result ≡ length_of F.NumberForm.encoding (R.RootSource.meaning source.now) call }
{
    match pose::<F>(call) {
        ControlFlow::Break(pattern) => Measured { pattern, count: 0 },
        ControlFlow::Continue(posed) => root_length::<F, R>(source, posed),
    }
}

// The pattern that answers for a call in a plain case, and else the root that is to be found.
#[inline(always)]
fn pose<F: NumberForm>(call: Call<F::Pattern>) -> ControlFlow<F::Pattern, Posed>
    ensures { PosedUnlessPlain F.NumberForm.encoding (asked F.NumberForm.encoding call) result }
{
    match call {
        Call::Hypot { x, y } => two_sides::<F>(SideReading::read(x), SideReading::read(y)),
        Call::Cathetus { hypotenuse, leg } => {
            other_leg::<F>(SideReading::read(hypotenuse), SideReading::read(leg))
        }
        Call::ThreeSides { x, y, z } => three_sides::<F>(
            SideReading::read(x),
            SideReading::read(y),
            SideReading::read(z),
        ),
    }
}

// The root of the sum of two squares. Here and below sides are named one by one, since those of a sum are
// alike and those of a leg are the hypotenuse and the other leg.
#[inline(always)]
fn two_sides<F: NumberForm>(x: SideReading<F>, y: SideReading<F>) -> ControlFlow<F::Pattern, Posed>
    ensures { PosedUnlessPlain F.NumberForm.encoding (sum_of (x.reading ∷ y.reading ∷ [])) result }
{
    three_sides(x, y, SideReading::zero())
}

// The root of the sum of three squares.
#[inline(always)]
fn three_sides<F: NumberForm>(
    x: SideReading<F>,
    y: SideReading<F>,
    z: SideReading<F>,
) -> ControlFlow<F::Pattern, Posed>
    ensures { PosedUnlessPlain F.NumberForm.encoding (sum_of (x.reading ∷ y.reading ∷ z.reading ∷ [])) result }
{
    break_on(special_sum::<F>(x.reading, y.reading, z.reading))?;
    let sides = descending(x.finite().side, y.finite().side, z.finite().side);
    let longest = FiniteSide::<F> {
        side: sides.first,
        form: PhantomData,
    };
    break_on(plain_sum(&longest, sides.second))?;
    ControlFlow::Continue(pose_sum(sides))
}

// The root of the difference of two squares.
#[inline(always)]
fn other_leg<F: NumberForm>(x: SideReading<F>, y: SideReading<F>) -> ControlFlow<F::Pattern, Posed>
    ensures { PosedUnlessPlain F.NumberForm.encoding (difference_of x.reading y.reading) result }
{
    let hypotenuse = x.finite();
    let leg = y.finite().side;
    let shorter = hypotenuse.side.is_shorter(leg);
    break_on(special_leg::<F>(x.reading, y.reading, shorter))?;
    break_on(plain_leg(&hypotenuse, leg))?;
    ControlFlow::Continue(pose_leg(hypotenuse.side, leg))
}

// Breaks off with an answer, and goes on without one.
#[inline(always)]
fn break_on<P>(answer: Option<P>) -> ControlFlow<P, ()>
    ensures { MatchControlFlow result (λ _. answer ≡ None) (λ pattern. answer ≡ Some pattern) }
{
    match answer {
        Some(pattern) => ControlFlow::Break(pattern),
        None => ControlFlow::Continue(()),
    }
}
