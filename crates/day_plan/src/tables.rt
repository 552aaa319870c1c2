//! Columns: through a refusal and a new scan, and at the limits of their lengths.
use anyhow::anyhow;
use columns::column::{Operation, length_column};
use columns::refusal::ColumnRefusal;
use forms::binary::Binary64;
use solver::states::{Sealed, Solver};
use sources::digit::DigitSource;
use sources::root_source::RootSource;
use std::io;

/// The columns of the day, all on one solver.
pub fn print_tables(rt: &HostRuntime) -> anyhow::Result<()> {
    println!(rt; "columns in binary64 over digits, allowance 7")?;
    let solver: Solver<Binary64, DigitSource> = Solver::new(DigitSource);
    let mut sealed = solver.seal(7).map_err(|_| anyhow!("not sealed"))?;
    print_stopping(rt, &mut sealed)?;
    print_limits(rt, &mut sealed)?;
    Ok(())
}

// A column that stops at a refused entry, and the rest of it after a new scan.
fn print_stopping<R: RootSource>(
    rt: &HostRuntime,
    sealed: &mut Sealed<Binary64, R>,
) -> io::Result<()> {
    let xs = [
        0x4008_0000_0000_0000,
        0x3fff_0006_e3ba_bf70,
        0x3ff9_d52e_050c_0228,
        0x3ff0_0000_0000_0000,
        0x4014_0000_0000_0000,
    ];
    let ys = [
        0x4010_0000_0000_0000,
        0x3fdf_bf53_dc0e_a6e9,
        0x3fd9_42b0_3d50_fc2e,
        0x3ff0_0000_0000_0000,
        0x4028_0000_0000_0000,
    ];
    let mut lengths = [0; 5];
    let mut counts = [0; 5];
    print_column(rt, sealed, &xs, &ys, &mut lengths, &mut counts)?;
    sealed.new_scan();
    println!(rt; "  new scan")?;
    print_column(
        rt,
        sealed,
        &xs[3..],
        &ys[3..],
        &mut lengths[3..],
        &mut counts[3..],
    )
}

// Columns that differ in length, and columns of 4,096 and 4,097 entries.
fn print_limits<R: RootSource>(
    rt: &HostRuntime,
    sealed: &mut Sealed<Binary64, R>,
) -> io::Result<()> {
    let sides = [0x3ff0_0000_0000_0000; 4097];
    let mut lengths = [0; 4097];
    let mut counts = [0; 4097];
    print!(rt; "  4,097 and 4,096 entries: ")?;
    let uneven = length_column(
        sealed,
        Operation::Cathetus,
        &sides,
        &sides[1..],
        &mut lengths,
        &mut counts,
    );
    print_outcome(rt, sealed, uneven)?;
    print!(rt; "  4,097 entries: ")?;
    let long = length_column(
        sealed,
        Operation::Cathetus,
        &sides,
        &sides,
        &mut lengths,
        &mut counts,
    );
    print_outcome(rt, sealed, long)?;
    print!(rt; "  4,096 entries: ")?;
    let served = length_column(
        sealed,
        Operation::Cathetus,
        &sides[1..],
        &sides[1..],
        &mut lengths[1..],
        &mut counts[1..],
    );
    print_outcome(rt, sealed, served)
}

// Runs a column, and prints what stands in its answer columns then and how it ended.
fn print_column<R: RootSource>(
    rt: &HostRuntime,
    sealed: &mut Sealed<Binary64, R>,
    xs: &[u64],
    ys: &[u64],
    lengths: &mut [u64],
    counts: &mut [u64],
) -> io::Result<()> {
    let outcome = length_column(sealed, Operation::Hypot, xs, ys, lengths, counts);
    for (length, count) in lengths.iter().zip(counts.iter()) {
        println!(rt; "  {length:016x} {count}")?;
    }
    print!(rt; "  ")?;
    print_outcome(rt, sealed, outcome)
}

fn print_outcome<R: RootSource>(
    rt: &HostRuntime,
    sealed: &Sealed<Binary64, R>,
    outcome: Result<(), ColumnRefusal>,
) -> io::Result<()> {
    let steps_left = sealed.steps_left();
    match outcome {
        Ok(()) => println!(rt; "served, steps left {steps_left}"),
        Err(refusal) => {
            let refusal = refusal.numbered();
            println!(rt; "{refusal}, steps left {steps_left}")
        }
    }
}
