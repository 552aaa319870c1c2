//! A session: a solver is sealed, replies to a list of requests, and has its seal broken.
ghost use Rattle.std.specs.Prelude.{◌≡◌, [], ◌∷◌, IfOk, MatchResult};
ghost use Rattle.solver.specs.Log.{Complete, Logs, requests_of};
ghost use Rattle.solver.specs.Law.{Law};
ghost use Rattle.solver.specs.Session.{NotKept};

use crate::log::{Entry, Request};
use crate::states::{SealRefused, Sealed, Solver};
use forms::number_form::NumberForm;
use sources::root_source::RootSource;
use std::alloc::{AllocError, Global};

/// What a session leaves: its log, the steps left at its end, and the solver.
#[derive(Drop)]
pub struct Session<F: NumberForm, R> {
    pub log: Vec<Entry<F::Pattern>>,
    pub steps_left: u64,
    pub solver: Solver<F, R>,
}

/// Why there is no session; the solver is given back as it was.
#[derive(Drop)]
pub enum NoSession<F, R> {
    Sealing { refused: SealRefused<F, R> },
    /// the log could not be stored
    Memory { solver: Solver<F, R> },
}

/// Seals the solver, makes the requests in their order, and breaks the seal. The log is complete,
/// and it keeps the law.
pub fn keep_log<F: NumberForm, R: RootSource>(
    heap: Global,
    solver: Solver<F, R>,
    allowance: u64,
    requests: &[Request<F::Pattern>],
) -> Result<Session<F, R>, NoSession<F, R>>
    ensures complete { IfOk result (λ s. Complete F.NumberForm.encoding (R.RootSource.meaning solver.source) allowance s.log.items s.steps_left) }
    ensures law { IfOk result (λ s. Law F.NumberForm.encoding (R.RootSource.meaning solver.source) allowance s.log.items s.steps_left) }
    ensures requests { IfOk result (λ s. requests_of s.log.items ≡ requests.now) }
    ensures back { MatchResult result (λ s. s.solver ≡ solver) (λ e. NotKept R.RootSource.meaning solver allowance e) }
{
    // By `match`, since `?` would ask that the form and the source are `Drop`.
    let mut sealed = match solver.seal(allowance) {
        Ok(sealed) => sealed,
        Err(refused) => return Err(NoSession::Sealing { refused }),
    };
    match entries(heap, &mut sealed, requests) {
        Ok(log) => Ok(Session {
            log,
            steps_left: sealed.steps_left(),
            solver: sealed.break_seal(),
        }),
        Err(_) => Err(NoSession::Memory {
            solver: sealed.break_seal(),
        }),
    }
}

// The entries of the requests.
fn entries<F: NumberForm, R: RootSource>(
    heap: Global,
    solver: &mut Sealed<F, R>,
    requests: &[Request<F::Pattern>],
) -> Result<Vec<Entry<F::Pattern>>, AllocError>
    ensures log { IfOk result (λ v. Logs F.NumberForm.encoding R.RootSource.meaning solver.old v.items solver.new × (requests_of v.items ≡ requests.now)) }
    ensures source { solver.new.source ≡ solver.old.source }
{
    let mut log = Vec::new(heap);
    for request in requests {
        log.push(entry(solver, *request))?;
    }
    Ok(log)
}

// The entry of a request.
fn entry<F: NumberForm, R: RootSource>(
    solver: &mut Sealed<F, R>,
    request: Request<F::Pattern>,
) -> Entry<F::Pattern>
    ensures request { result.request ≡ request }
    ensures log { Logs F.NumberForm.encoding R.RootSource.meaning solver.old (result ∷ []) solver.new }
{
    let reply = solver.answer(request);
    Entry { request, reply }
}
