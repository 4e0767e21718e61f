// Tests of the memories: what a power failure leaves of the simulated one, a cell that is cut off at every operation, and the memory in a
// file, in a folder of its own.
#![tactic(auto)]

mod cells;
mod failures;
mod files;
mod steps;

fn run(rt: &HostRuntime) -> anyhow::Result<()> {
    failures::prefixes(rt)?;
    failures::fenced_last(rt)?;
    failures::large(rt)?;
    cells::every_cut(rt)?;
    files::all(rt)
}

fn main(rt: HostRuntime) -> anyhow::Result<()> {
    run(&rt)
}
