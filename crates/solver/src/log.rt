//! The log of a sealed solver: each request with its patterns, and what the solver replied.
ghost use Rattle.forms.specs.Encoding.{Encoding, Lawful};
ghost use Rattle.sources.specs.Source.{Source, Sound};
ghost use Rattle.solver.specs.Law.{EveryLog, OneLog};
ghost use Rattle.solver.specs.Printed.{request_text};

use crate::refusal::CallRefusal;
use lengths::call::{Call, Measured};
use std::fmt;

/// A request to a sealed solver.
#[derive(Clone, Copy, PartialEq, Eq, Debug)]
pub enum Request<P> {
    Length { call: Call<P> },
    NewScan,
}

/// The call, or the words "new scan".
impl<P: Copy + fmt::Radix> fmt::Display for Request<P> {
    ghost output = { request_text P.HasDigits.word };

    fn fmt<W: fmt::Write>(&self, f: &mut fmt::Formatter<W>) -> fmt::Result {
        match self {
            Request::Length { call } => write!(f, "{call}"),
            Request::NewScan => write!(f, "new scan"),
        }
    }
}

/// What a sealed solver has done for a request.
#[derive(Clone, Copy, PartialEq, Eq, Debug)]
pub enum Done<P> {
    /// the length of a call, with its count
    Served { measured: Measured<P> },
    /// a new scan has the whole allowance left
    Renewed,
}

/// An entry of a log: a request, and what was done for it or why it was refused.
#[derive(Clone, Copy, PartialEq, Eq, Debug)]
pub struct Entry<P> {
    pub request: Request<P>,
    pub reply: Result<Done<P>, CallRefusal>,
}

/// Every complete log keeps the law, and every list of requests to a solver that can be sealed has
/// exactly one complete log: for every pattern type, number form and root source.
pub fn log_law<P>()
    ensures every { (encoding : Encoding P) (source : Source) → Lawful encoding → Sound source → EveryLog encoding source }
    ensures one { (encoding : Encoding P) (source : Source) → OneLog encoding source }
{}
