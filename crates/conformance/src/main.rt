#![tactic(auto)]

// Runs both implementations on the same cases, and tells for each family whether they differ.
mod bench;
mod build;
mod calls;
mod dice;
mod examine;
mod linecases;
mod netcases;
mod same;
mod tally;
mod textcases;
mod towers;
mod worked;

use bench::Bench;
use linecases::lines;
use netcases::{chains, edits, full_tables, plugs, rings, twins};
use plain::words::No;
use std::io;
use textcases::texts;
use towers::towers;
use worked::worked;

// Plays one family, and prints its line.
fn family<F: FnOnce(&mut Bench) -> Result<(), No>>(
    rt: &HostRuntime,
    name: &str,
    play: F,
) -> io::Result<()>
    requires { F.IsAlwaysCallable play }
{
    let mut bench = Bench::new(rt.alloc());
    let outcome = play(&mut bench);
    bench.tally.print(rt, name)?;
    if let Err(no) = outcome {
        println!(rt; "{name}: stopped by {no:?}")?;
    }
    Ok(())
}

fn main(rt: HostRuntime) -> io::Result<()> {
    family(&rt, "the worked board", |bench| worked(bench))?;
    family(&rt, "edits of nets", |bench| edits(bench, 1000))?;
    family(&rt, "rings", |bench| rings(bench, 400))?;
    family(&rt, "deep chains", |bench| chains(bench, 300))?;
    family(&rt, "full tables", |bench| full_tables(bench, 6))?;
    family(&rt, "twins compared", |bench| twins(bench, 500))?;
    family(&rt, "plugged banks", |bench| plugs(bench, 300))?;
    family(&rt, "stacks of all layers", |bench| towers(bench, 1000))?;
    family(&rt, "lines of text", |bench| lines(bench, 5000))?;
    family(&rt, "nets as texts", |bench| texts(bench, 1000))
}
