//! Does the work that each line of standard input names, as many times as the line says, and prints what came of it.
#![tactic(auto)]

mod readings;
mod ring;
mod rounds;
mod sites;
mod tally;

use readings::read_over;
use rounds::worked;
use sites::Site;
use std::alloc::Global;
use std::io::{BufRead, BufReader};
use tally::Tally;

/// Does a work as many times as a number says.
fn done(heap: Global, work: &str, times: u32) -> anyhow::Result<Tally> {
    let tally = match work {
        "acts small" => worked(heap, Site::Small, times)?,
        "acts full" => worked(heap, Site::Full, times)?,
        "plans small" => read_over(heap, Site::Small, times)?,
        "plans full" => read_over(heap, Site::Full, times)?,
        _ => anyhow::bail!("there is no such work"),
    };
    Ok(tally)
}

fn main(rt: HostRuntime) -> anyhow::Result<()> {
    for line in BufReader::new(rt.alloc(), rt.stdin())?.lines(rt.alloc()) {
        let line = line?;
        let (work, times) = line.as_str().rsplit_once(' ').unwrap_or(("", ""));
        let tally = done(rt.alloc(), work, times.parse::<u32>()?)?;
        println!(rt; "{work} {times}: {tally}")?;
    }
    Ok(())
}
