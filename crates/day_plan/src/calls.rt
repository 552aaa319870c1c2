//! Calls one by one, and the steps left after each.
use anyhow::anyhow;
use forms::binary::Binary64;
use lengths::call::Measured;
use solver::refusal::CallRefusal;
use solver::states::Solver;
use sources::digit::DigitSource;
use std::io;

/// Calls of each kind, a new scan, and the solver sealed anew with another allowance.
pub fn print_calls(rt: &HostRuntime) -> anyhow::Result<()> {
    let solver: Solver<Binary64, DigitSource> = Solver::new(DigitSource);
    let mut sealed = solver.seal(6).map_err(|_| anyhow!("not sealed"))?;
    print_allowance(rt, sealed.allowance())?;
    let hypotenuse = sealed.hypot(0x3fff_0006_e3ba_bf70, 0x3fdf_bf53_dc0e_a6e9);
    print_result(rt, "hypot", hypotenuse, sealed.steps_left())?;
    let leg = sealed.cathetus(0x3ff0_70c1_01f9_6374, 0x3fce_3d65_1ef7_46d3);
    print_result(rt, "cathetus", leg, sealed.steps_left())?;
    let refused = sealed.hypot(0x4008_0000_0000_0000, 0x4010_0000_0000_0000);
    print_result(rt, "hypot", refused, sealed.steps_left())?;
    sealed.new_scan();
    let steps_left = sealed.steps_left();
    println!(rt; "  new scan, steps left {steps_left}")?;
    let resealed = sealed.break_seal().seal(1_000);
    let mut sealed = resealed.map_err(|_| anyhow!("not sealed"))?;
    print_allowance(rt, sealed.allowance())?;
    let resultant = sealed.three_sides(
        0x3ff4_fa69_612b_e5dc,
        0x3fe9_0380_f1b4_0358,
        0x3fe0_0e64_6ba5_de84,
    );
    print_result(rt, "three sides", resultant, sealed.steps_left())?;
    Ok(())
}

fn print_allowance(rt: &HostRuntime, allowance: u64) -> io::Result<()> {
    println!(rt; "calls in binary64 over digits, allowance {allowance}")
}

fn print_result(
    rt: &HostRuntime,
    name: &str,
    res: Result<Measured<u64>, CallRefusal>,
    steps_left: u64,
) -> io::Result<()> {
    match res {
        Ok(measured) => println!(rt; "  {name} = {measured}")?,
        Err(refusal) => println!(rt; "  {name}: {}", refusal.numbered())?,
    }
    println!(rt; "  steps left {steps_left}")
}
