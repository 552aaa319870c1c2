//! Which solvers can be sealed.
use anyhow::anyhow;
use constant_source::ConstantSource;
use float_source::FloatSource;
use forms::binary::Binary64;
use solver::states::Solver;
use sources::digit::DigitSource;
use sources::refiner::Refiner;
use sources::root_source::RootSource;
use sources::table::TableSource;
use std::io;

/// Tries to seal solvers at the limits of grade and allowance.
pub fn print_sealings(rt: &HostRuntime) -> anyhow::Result<()> {
    println!(rt; "sealings")?;
    for allowance in [4, 5, 1_000_000, 1_000_001] {
        print_sealing(rt, "digits", DigitSource, allowance)?;
    }
    for allowance in [35, 36] {
        print_sealing(rt, "table, 3 steps", refined(TableSource, 3)?, allowance)?;
    }
    print_sealing(rt, "table, 2 steps", refined(TableSource, 2)?, 36)?;
    for allowance in [19, 20] {
        print_sealing(rt, "floats", FloatSource, allowance)?;
    }
    print_sealing(rt, "constant", ConstantSource, 1_000_000)?;
    print_sealing(
        rt,
        "constant, 4 steps",
        refined(ConstantSource, 4)?,
        1_000_000,
    )?;
    Ok(())
}

/// A source with a number of steps over it.
pub fn refined<S: RootSource + Drop>(below: S, steps: u32) -> anyhow::Result<Refiner<S>> {
    Refiner::new(below, steps).map_err(|_| anyhow!("a number of steps other than 1 to 4"))
}

// Seals a solver over the source, and breaks the seal again.
fn print_sealing<R: RootSource + Drop>(
    rt: &HostRuntime,
    name: &str,
    source: R,
    allowance: u64,
) -> io::Result<()> {
    let solver: Solver<Binary64, R> = Solver::new(source);
    match solver.seal(allowance) {
        Ok(sealed) => {
            let steps_left = sealed.steps_left();
            let grade = sealed.break_seal().into_source().grade();
            println!(rt;
                "  {name}, allowance {allowance}: sealed, grade {grade}, steps left {steps_left}"
            )
        }
        Err(refused) => {
            let refusal = refused.refusal.numbered();
            println!(rt; "  {name}, allowance {allowance}: {refusal}")
        }
    }
}
