//! Lines answered by the solver of the form that they name.
ghost use Rattle.std.specs.Prelude.{◌≡◌};
ghost use Rattle.commands.specs.Buffer.{kept};
ghost use Rattle.commands.specs.Line.{command_of};
ghost use Rattle.solver.specs.Serving.{reply_to, after_request};
ghost use Rattle.solver.specs.Log.{Logs, told};
ghost use Rattle.answers.specs.Outcome.{request_outcome, line_outcome, line_answer, after_line};

use crate::solvers::Solvers;
use commands::command::Command;
use commands::fault::TextFault;
use commands::line_buffer::LineBuffer;
use commands::parse::parse;
use commands::pattern::HexPattern;
use commands::reply::Reply;
use forms::number_form::NumberForm;
use solver::log::Request;
use solver::states::Sealed;
use sources::root_source::RootSource;

// The outcome of a request to a solver, with its length as lines spell it. A refusal of the solver becomes
// one of the line, whole.
fn request_outcome<F: NumberForm, R: RootSource>(
    solver: &mut Sealed<F, R>,
    request: Request<F::Pattern>,
) -> Result<Reply, TextFault>
where
    F::Pattern: HexPattern,
    ensures value { result ≡ request_outcome F.Pattern.HexPattern.written (reply_to F.NumberForm.encoding R.RootSource.meaning solver.old request) }
    ensures after { solver.new ≡ after_request F.NumberForm.encoding R.RootSource.meaning solver.old request }
{
    match request {
        Request::Length { call } => Ok(Reply::length(solver.measure(call)?)),
        Request::NewScan => {
            solver.new_scan();
            Ok(Reply::NewScan)
        }
    }
}

impl Solvers {
    /// The bytes that answer a line, which comes without its byte 10. The solver of the form that the
    /// line names may change; a line that is refused changes none.
    pub fn answer_line(&mut self, line: &[u8]) -> LineBuffer
        ensures bytes { kept result ≡ line_answer self.old line.now }
        ensures after { self.new ≡ after_line self.old line.now }
    {
        match self.line_outcome(line) {
            Ok(reply) => reply.line(),
            Err(fault) => fault.line(),
        }
    }

    // The outcome of a line: what is wrong with its text comes first.
    fn line_outcome(&mut self, line: &[u8]) -> Result<Reply, TextFault>
        ensures value { result ≡ line_outcome self.old (command_of line.now) }
        ensures after { self.new ≡ after_line self.old line.now }
    {
        // An arm a form, since each has patterns of its own type.
        match parse(line)? {
            Command::Binary64(request) => request_outcome(&mut self.binary64, request),
            Command::Binary32(request) => request_outcome(&mut self.binary32, request),
            Command::Thousandths(request) => request_outcome(&mut self.thousandths, request),
        }
    }
}
