//! Prints what each root source proposes for the words on its command line, in hexadecimal digits.
#![tactic(auto)]

use constant_source::ConstantSource;
use float_source::FloatSource;
use sources::digit::DigitSource;
use sources::refiner::Refiner;
use sources::root_source::RootSource;
use sources::table::TableSource;
use std::env;

// A source's grade, its proposal for the word, and how far that lies from the root.
fn print_proposal<S: RootSource>(rt: &HostRuntime, source: &S, word: u64) -> anyhow::Result<()> {
    let grade = source.grade();
    let Some(proposal) = source.propose(word) else {
        println!(rt; "grade {grade}, no proposal")?;
        return Ok(());
    };
    match DigitSource.propose(word) {
        Some(root) => {
            let distance = proposal.abs_diff(root);
            println!(rt; "grade {grade}, {proposal:014x}, {distance} from the root")?;
        }
        None => println!(rt; "grade {grade}, {proposal:014x}, but the word has no root")?,
    }
    Ok(())
}

// The same of a source with a number of steps over it.
fn print_refined<S: RootSource + Drop>(
    rt: &HostRuntime,
    below: S,
    steps: u32,
    word: u64,
) -> anyhow::Result<()> {
    match Refiner::new(below, steps) {
        Ok(refiner) => print_proposal(rt, &refiner, word),
        Err(refusal) => Ok(println!(rt; "{refusal}")?),
    }
}

// What the sources, and refiners over them, propose for one word.
fn print_proposals(rt: &HostRuntime, word: u64) -> anyhow::Result<()> {
    println!(rt; "word {word:016x}")?;
    print!(rt; "  digits: ")?;
    print_proposal(rt, &DigitSource, word)?;
    print!(rt; "  table: ")?;
    print_proposal(rt, &TableSource, word)?;
    for steps in 1..=5 {
        print!(rt; "  table, steps {steps}: ")?;
        print_refined(rt, TableSource, steps, word)?;
    }
    print!(rt; "  table, steps 1, then 2: ")?;
    print_refined(rt, Refiner::new(TableSource, 1)?, 2, word)?;
    print!(rt; "  floats: ")?;
    print_proposal(rt, &FloatSource, word)?;
    print!(rt; "  floats, steps 1: ")?;
    print_refined(rt, FloatSource, 1, word)?;
    print!(rt; "  constant: ")?;
    print_proposal(rt, &ConstantSource, word)?;
    print!(rt; "  constant, steps 4: ")?;
    print_refined(rt, ConstantSource, 4, word)
}

fn run(rt: &HostRuntime) -> anyhow::Result<()> {
    for arg in env::args(rt)?.skip(1) {
        print_proposals(rt, u64::from_str_radix(arg.as_str(), 16)?)?;
    }
    Ok(())
}

fn main(rt: HostRuntime) -> anyhow::Result<()> {
    run(&rt)
}
