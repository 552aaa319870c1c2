//! Scans of single calls: each solver's log, and the account of its scans.
use crate::sealings::refined;
use anyhow::anyhow;
use float_source::FloatSource;
use forms::binary::{Binary32, Binary64};
use forms::number_form::NumberForm;
use forms::thousandths::Thousandths;
use lengths::call::Call;
use solver::log::{Done, Entry, Request};
use solver::session::{NoSession, keep_log};
use solver::states::Solver;
use sources::digit::DigitSource;
use sources::root_source::RootSource;
use sources::table::TableSource;
use std::{fmt, io};

/// The sessions of the day.
pub fn print_scans(rt: &HostRuntime) -> anyhow::Result<()> {
    println!(rt; "binary64 over digits, allowance 5")?;
    let solver: Solver<Binary64, DigitSource> = Solver::new(DigitSource);
    print_session(rt, solver, 5, &binary64_requests())?;
    println!(rt; "binary64 over a table with 3 steps, allowance 36")?;
    let solver: Solver<Binary64, _> = Solver::new(refined(TableSource, 3)?);
    print_session(rt, solver, 36, &binary64_requests())?;
    println!(rt; "binary32 over floats, allowance 20")?;
    let solver: Solver<Binary32, FloatSource> = Solver::new(FloatSource);
    print_session(rt, solver, 20, &binary32_requests())?;
    println!(rt; "thousandths over digits, allowance 6")?;
    let solver: Solver<Thousandths, DigitSource> = Solver::new(DigitSource);
    print_session(rt, solver, 6, &thousandths_requests())
}

fn hypot<P>(x: P, y: P) -> Request<P> {
    Request::Length {
        call: Call::Hypot { x, y },
    }
}

fn cathetus<P>(hypotenuse: P, leg: P) -> Request<P> {
    Request::Length {
        call: Call::Cathetus { hypotenuse, leg },
    }
}

fn three_sides<P>(x: P, y: P, z: P) -> Request<P> {
    Request::Length {
        call: Call::ThreeSides { x, y, z },
    }
}

// 3 and 4, sides whose floor root lies below the root of the head, a leg, three sides, and a NaN.
fn binary64_requests() -> [Request<u64>; 9] {
    [
        hypot(0x4008_0000_0000_0000, 0x4010_0000_0000_0000),
        hypot(0x3fff_0006_e3ba_bf70, 0x3fdf_bf53_dc0e_a6e9),
        hypot(0x7ff8_0000_0000_0000, 0x3ff0_0000_0000_0000),
        Request::NewScan,
        cathetus(0x3ff0_70c1_01f9_6374, 0x3fce_3d65_1ef7_46d3),
        cathetus(0x4014_0000_0000_0000, 0x4010_0000_0000_0000),
        Request::NewScan,
        three_sides(
            0x3ff4_fa69_612b_e5dc,
            0x3fe9_0380_f1b4_0358,
            0x3fe0_0e64_6ba5_de84,
        ),
        hypot(0x7ff8_0000_0000_0000, 0x3ff0_0000_0000_0000),
    ]
}

fn binary32_requests() -> [Request<u32>; 6] {
    [
        hypot(0x5143_fffe, 0x4b5f_ffff),
        cathetus(0x5144_0002, 0x4b60_0001),
        three_sides(0x4040_0000, 0x4080_0000, 0),
        Request::NewScan,
        hypot(0x4b19_999f, 0x4b4c_ccd4),
        cathetus(0x4080_0000, 0x40a0_0000),
    ]
}

fn thousandths_requests() -> [Request<u32>; 7] {
    [
        hypot(3000, 4000),
        hypot(0x7fff_fffe, 0x7fff_fffe),
        hypot(801_395_683, 75_721_966),
        three_sides(2_000_000_011, 700_000_001, 300_000_007),
        Request::NewScan,
        cathetus(674_377_384, 238_263_241),
        hypot(0x8000_0000, 5),
    ]
}

// Runs the requests on the solver, and prints their log with the account of each scan.
fn print_session<F, R>(
    rt: &HostRuntime,
    solver: Solver<F, R>,
    allowance: u64,
    requests: &[Request<F::Pattern>],
) -> anyhow::Result<()>
where
    F: NumberForm,
    F::Pattern: Drop + fmt::Radix,
    R: RootSource + Drop,
{
    match keep_log(rt.alloc(), solver, allowance, requests) {
        Ok(session) => {
            print_log(rt, allowance, &session.log)?;
            println!(rt; "  seal broken, steps left {}", session.steps_left)?;
            Ok(())
        }
        Err(NoSession::Sealing { refused }) => {
            println!(rt; "  {}", refused.refusal.numbered())?;
            Ok(())
        }
        Err(NoSession::Memory { .. }) => Err(anyhow!("no memory for a log")),
    }
}

// Prints a log entry by entry, and the account of each scan at its end.
fn print_log<P: Copy + fmt::Radix>(
    rt: &HostRuntime,
    allowance: u64,
    log: &[Entry<P>],
) -> io::Result<()> {
    let mut counted: u64 = 0;
    for entry in log {
        let request = entry.request;
        match entry.reply {
            Ok(Done::Served { measured }) => {
                println!(rt; "  {request} = {measured}")?;
                counted = counted.saturating_add(measured.count);
            }
            Err(refusal) => println!(rt; "  {request}: {}", refusal.numbered())?,
            Ok(Done::Renewed) => {
                print_account(rt, allowance, counted)?;
                println!(rt; "  {request}")?;
                counted = 0;
            }
        }
    }
    print_account(rt, allowance, counted)
}

// By the law of the log the counts of a scan and the steps left make up the allowance.
fn print_account(rt: &HostRuntime, allowance: u64, counted: u64) -> io::Result<()> {
    let steps_left = allowance.saturating_sub(counted);
    println!(rt; "  account: counts {counted}, steps left {steps_left}, allowance {allowance}")
}
