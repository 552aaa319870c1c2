//! Sealing a solver, and breaking the seal.
ghost use Rattle.std.specs.Prelude.{◌≡◌};
ghost use Rattle.solver.specs.Sealing.{seal_result, broken};
ghost use Rattle.solver.specs.Log.{OpensLog};

use crate::refusal::SealRefusal;
use crate::states::{SealRefused, Sealed, Solver, reserve};
use forms::number_form::NumberForm;
use sources::root_source::RootSource;
use std::marker::PhantomData;

impl<F: NumberForm, R: RootSource> Solver<F, R> {
    /// A solver over a root source.
    pub fn new(source: R) -> Solver<F, R>
        ensures { result.source ≡ source }
    {
        Solver {
            form: PhantomData,
            source,
        }
    }

    /// The root source, as it was.
    pub fn into_source(self) -> R
        ensures { result ≡ self.source }
    {
        let Solver { form: _, source } = self;
        source
    }

    /// Seals the solver with an allowance of steps for each scan; its log begins. A grade above 7 is
    /// refused, then an allowance that is less than a call may take or above 1,000,000; the solver
    /// is given back as it was.
    pub fn seal(self, allowance: u64) -> Result<Sealed<F, R>, SealRefused<F, R>>
        ensures value { result ≡ seal_result R.RootSource.meaning self allowance }
        ensures log { OpensLog F.NumberForm.encoding R.RootSource.meaning result }
    {
        let grade = self.source.grade();
        if grade > 7 {
            return Err(SealRefused {
                refusal: SealRefusal::Grade { grade },
                solver: self,
            });
        }
        if allowance < reserve(grade) || allowance > 1_000_000 {
            return Err(SealRefused {
                refusal: SealRefusal::Allowance { allowance },
                solver: self,
            });
        }
        let Solver { form, source } = self;
        Ok(Sealed {
            form,
            source,
            allowance,
            steps_left: allowance,
        })
    }
}

impl<F: NumberForm, R: RootSource> Sealed<F, R> {
    /// The allowance of steps for a scan.
    pub fn allowance(&self) -> u64
        ensures { result ≡ self.now.allowance }
    {
        self.allowance
    }

    /// The steps left of this scan.
    pub fn steps_left(&self) -> u64
        ensures { result ≡ self.now.steps_left }
    {
        self.steps_left
    }

    /// Breaks the seal: the log ends, and the unsealed solver has its source back.
    pub fn break_seal(self) -> Solver<F, R>
        ensures { result ≡ broken self }
    {
        let Sealed {
            form,
            source,
            allowance: _,
            steps_left: _,
        } = self;
        Solver { form, source }
    }
}
