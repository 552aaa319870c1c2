//! Replays vectors from standard input against the lengths of this repository, over the digit source.
//!
//! A vector is two lines: a call as the text layer reads it, and what is known of its answer. `= ` with
//! pattern and count, or with the pattern alone, is the right answer; `x ` with a pattern is an answer
//! that is known to be wrong, and has to differ. Lines that begin with `#` are headings.
#![tactic(auto)]

use commands::command::Command;
use commands::line_buffer::LineBuffer;
use commands::parse::parse;
use commands::pattern::HexPattern;
use commands::reply::Reply;
use forms::binary::{Binary32, Binary64};
use forms::number_form::NumberForm;
use forms::thousandths::Thousandths;
use lengths::length::length_of;
use sheet::line::trimmed;
use solver::log::Request;
use sources::digit::DigitSource;
use std::io::{BufRead, BufReader, Write};
use std::ops::AddAssign;
use std::{fmt, io, mem};

// What became of the vectors so far.
#[derive(Clone, Copy, Default, PartialEq)]
struct Tally {
    right: u64,
    differing: u64,
    wrong: u64,
    unread: u64,
}

// The line that answers a request in a form, or nothing where it asks for no length.
fn length_line<F: NumberForm>(request: Request<F::Pattern>) -> Option<LineBuffer>
where
    F::Pattern: HexPattern,
{
    match request {
        Request::Length { call } => {
            let length = length_of::<F, DigitSource>(&DigitSource, call);
            Some(Reply::length(length).line())
        }
        Request::NewScan => None,
    }
}

// The answer to a call's line, or nothing where it asks for no length.
fn answer(line: &[u8]) -> Option<LineBuffer> {
    // An arm a form, since each has patterns of its own type.
    match parse(line).ok()? {
        Command::Binary64(request) => length_line::<Binary64>(request),
        Command::Binary32(request) => length_line::<Binary32>(request),
        Command::Thousandths(request) => length_line::<Thousandths>(request),
    }
}

// Whether the answer begins with what is known of it, and that ends where a word of the answer does.
fn agrees(answer: &[u8], known: &[u8]) -> bool {
    matches!(answer.strip_prefix(known), Some([b' ' | b'\n', ..]))
}

// The answer behind the byte that marks it.
fn behind_mark(line: &LineBuffer) -> &[u8] {
    match line.as_slice() {
        [_, rest @ ..] => rest,
        [] => b"",
    }
}

impl Tally {
    // Counts one more vector.
    fn replay(&mut self, call: &[u8], known: &[u8]) {
        let count = match answer(call) {
            Some(line) => self.count_of(behind_mark(&line), known),
            None => &mut self.unread,
        };
        *count = count.saturating_add(1);
    }

    // The count that an answer falls into, by what is known of it.
    fn count_of(&mut self, told: &[u8], known: &[u8]) -> &mut u64 {
        match known {
            [b'=', rest @ ..] if agrees(told, rest) => &mut self.right,
            [b'x', rest @ ..] if !agrees(told, rest) => &mut self.differing,
            [b'=' | b'x', ..] => &mut self.wrong,
            _ => &mut self.unread,
        }
    }
}

impl AddAssign for Tally {
    fn add_assign(&mut self, other: Tally) {
        self.right = self.right.saturating_add(other.right);
        self.differing = self.differing.saturating_add(other.differing);
        self.wrong = self.wrong.saturating_add(other.wrong);
        self.unread = self.unread.saturating_add(other.unread);
    }
}

impl fmt::Display for Tally {
    fn fmt<W: fmt::Write>(&self, f: &mut fmt::Formatter<W>) -> fmt::Result {
        let Tally {
            right,
            differing,
            wrong,
            unread,
        } = self;
        write!(
            f,
            "{right} right, {differing} wrong answers of others differ, {wrong} not as known, {unread} not read"
        )
    }
}

// Prints a heading.
fn print_heading(rt: &HostRuntime, heading: &[u8]) -> io::Result<()> {
    rt.stdout().write_all(heading)
}

fn run(rt: &HostRuntime) -> io::Result<()> {
    let mut input = BufReader::new(rt.alloc(), rt.stdin())?;
    let mut call = Vec::new(rt.alloc());
    let mut known = Vec::new(rt.alloc());
    let mut section = Tally::default();
    let mut total = Tally::default();
    // By `read_until` and no `split`: a call's known answer is read inside the loop, from the line behind it.
    for _line in 0..u64::MAX {
        call.clear();
        known.clear();
        if input.read_until(b'\n', &mut call)? == 0 {
            break;
        }
        if call.starts_with(b"#") {
            if section != Tally::default() {
                println!(rt; "{section}")?;
            }
            print_heading(rt, &call)?;
            total += mem::take(&mut section);
            continue;
        }
        input.read_until(b'\n', &mut known)?;
        section.replay(trimmed(&call), trimmed(&known));
    }
    println!(rt; "{section}")?;
    total += section;
    println!(rt; "in all: {total}")
}

fn main(rt: HostRuntime) -> io::Result<()> {
    run(&rt)
}
