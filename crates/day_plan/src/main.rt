//! Plans a day of measurements: seals solvers over different root sources, runs their calls and
//! columns into refusals and through new scans, and prints logs and the account of each scan.
#![tactic(auto)]

mod calls;
mod scans;
mod sealings;
mod tables;

fn run(rt: &HostRuntime) -> anyhow::Result<()> {
    sealings::print_sealings(rt)?;
    calls::print_calls(rt)?;
    scans::print_scans(rt)?;
    tables::print_tables(rt)
}

fn main(rt: HostRuntime) -> anyhow::Result<()> {
    run(&rt)
}
