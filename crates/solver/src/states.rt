//! The two states of a solver. Sealing leads from one to the other, breaking the seal leads back,
//! and neither can be copied or cloned.
ghost use Rattle.std.specs.Prelude.{◌≡◌, ◌+◌, ◌^◌, ◌≤◌};

use crate::refusal::SealRefusal;
use std::marker::PhantomData;

pub mod calls;
pub mod sealing;

/// A solver that is not sealed: the root source of its lengths, for the number form `F`.
#[derive(Drop)]
pub struct Solver<F, R> {
    form: PhantomData<F>,
    source: R,
}

/// A sealed solver: the allowance of steps for a scan, and the steps left of it.
#[derive(Drop)]
pub struct Sealed<F, R> {
    form: PhantomData<F>,
    source: R,
    allowance: u64,
    steps_left: u64,
}

/// A sealing that was refused, with the solver as it was.
#[derive(Drop)]
pub struct SealRefused<F, R> {
    pub refusal: SealRefusal,
    pub solver: Solver<F, R>,
}

// The steps that a call may take, over a source of this grade.
fn reserve(grade: u32) -> u64
    requires { grade ≤ 53 }
    ensures { result ≡ 2 ^ grade + 4 }
{
    (1 << grade) + 4
}
