//! Reads a pair of probe readings from each line of standard input and prints their resultant.
#![tactic(auto)]

use forms::number_form::NumberForm;
use forms::reading::Reading;
use forms::thousandths::Thousandths;
use sheet::line::trimmed;
use sheet::pair::{Solved, solve_line};
use std::io::{BufRead, BufReader};
use std::{fmt, io};

// A reading as people write it, in units of a thousand thousandths.
#[derive(Clone, Copy)]
struct Shown(u32);

impl fmt::Display for Shown {
    fn fmt<W: fmt::Write>(&self, f: &mut fmt::Formatter<W>) -> fmt::Result {
        match Thousandths::read(self.0) {
            Reading::Finite {
                negative,
                significand,
                ..
            } => {
                let sign = if negative { "-" } else { "" };
                let whole = significand / 1000;
                let rest = significand % 1000;
                write!(f, "{sign}{whole}.{rest:03}")
            }
            Reading::Infinite { negative: false } => write!(f, "over range"),
            Reading::Infinite { negative: true } => write!(f, "under range"),
            Reading::QuietNan | Reading::SignallingNan => write!(f, "no reading"),
        }
    }
}

// A pair of readings with their resultant, as a line of the output tells them.
#[derive(Clone, Copy)]
struct Told(Solved);

impl fmt::Display for Told {
    fn fmt<W: fmt::Write>(&self, f: &mut fmt::Formatter<W>) -> fmt::Result {
        let x = Shown(self.0.pair.x);
        let y = Shown(self.0.pair.y);
        let length = Shown(self.0.resultant);
        let pattern = self.0.resultant;
        write!(f, "{x} and {y} give {length} ({pattern:08x})")
    }
}

fn run(rt: &HostRuntime) -> io::Result<()> {
    let mut input = BufReader::new(rt.alloc(), rt.stdin())?;
    // One buffer serves for every line: `split` makes a new one for each.
    let mut line = Vec::new(rt.alloc());
    let mut solved_count: u64 = 0;
    let mut fault_count: u64 = 0;
    for number in 1..u64::MAX {
        line.clear();
        if input.read_until(b'\n', &mut line)? == 0 {
            break;
        }
        match solve_line(trimmed(&line)) {
            Ok(solved) => {
                solved_count = solved_count.saturating_add(1);
                let told = Told(solved);
                println!(rt; "line {number}: {told}")?;
            }
            Err(fault) => {
                fault_count = fault_count.saturating_add(1);
                println!(rt; "line {number}: {fault}")?;
            }
        }
    }
    println!(rt; "{solved_count} resultants, {fault_count} lines not read")
}

fn main(rt: HostRuntime) -> io::Result<()> {
    run(&rt)
}
