//! Answers, and the lines that tell them.
ghost use Rattle.std.specs.Prelude.{◌≡◌};
ghost use Rattle.commands.specs.Buffer.{kept};
ghost use Rattle.commands.specs.Reply.{reply_line, length_reply};
ghost use Rattle.commands.specs.declared.reply.Reply.TheVariants.{Length as LengthReply, NewScan as NewScanReply};

use crate::line_buffer::LineBuffer;
use crate::pattern::{HexPattern, PatternBits};
use lengths::call::Measured;

/// What a line that is not refused is answered with.
#[derive(Clone, Copy, PartialEq, Eq, Debug)]
pub enum Reply {
    /// the pattern of a length, and the steps that it took
    Length { pattern: PatternBits, count: u64 },
    /// a new scan has begun
    NewScan,
}

impl Reply {
    /// The answer with a length, in any form.
    pub fn length<P: HexPattern>(measured: Measured<P>) -> Reply
        ensures { result ≡ length_reply P.HexPattern.written measured }
    {
        Reply::Length {
            pattern: measured.pattern.into(),
            count: measured.count,
        }
    }

    /// The line that tells the answer, with the byte 10 that ends it.
    pub fn line(self) -> LineBuffer
        ensures { kept result ≡ reply_line self }
    {
        match self {
            Reply::Length { pattern, count } => length_line(pattern, count),
            Reply::NewScan => new_scan_line(),
        }
    }
}

fn length_line(pattern: PatternBits, count: u64) -> LineBuffer
    ensures { kept result ≡ reply_line (LengthReply pattern count) }
{
    let mut line = LineBuffer::new();
    line.push_bytes(b"= ");
    line.push_pattern(pattern);
    line.push(b' ');
    line.push_decimal(count);
    line.push(b'\n');
    line
}

fn new_scan_line() -> LineBuffer
    ensures { kept result ≡ reply_line NewScanReply }
{
    let mut line = LineBuffer::new();
    line.push_bytes(b"= new\n");
    line
}

#[cfg(test)]
mod tests {
    use super::*;
    use crate::fault::{Layer, TextFault, refusal_line};
    use solver::refusal::CallRefusal;

    #[test]
    fn lines(rt: HostRuntime) {
        let length = Reply::length(Measured {
            pattern: 0xabcd_u32,
            count: 0,
        });
        assert!(rt; length.line().as_slice() == b"= 0000abcd 0\n".as_slice());
        let longest = Reply::length(Measured {
            pattern: 0x4014_0000_0000_00ef_u64,
            count: u64::MAX,
        });
        assert!(rt;
            longest.line().as_slice() == b"= 40140000000000ef 18446744073709551615\n".as_slice()
        );
        assert!(rt; Reply::NewScan.line().as_slice() == b"= new\n".as_slice());
        let fault = TextFault::LongLine;
        assert!(rt; fault.line().as_slice() == b"! 7 text 80\n".as_slice());
        let refused = TextFault::Call(CallRefusal::TooFewSteps { steps_left: 3 });
        assert!(rt; refused.line().as_slice() == b"! 4 solver 3\n".as_slice());
        let line = refusal_line(4, Layer::Solver, 3);
        assert!(rt; line.as_slice() == b"! 4 solver 3\n".as_slice());
    }
}
