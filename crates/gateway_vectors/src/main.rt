//! Runs the gateway over the rows of standard input, and prints for each whether it did what stands there. The rows'
//! form is explained at their head.
#![tactic(auto)]

mod case;
mod cut;
mod how;
mod lines;
mod links;
mod recorded;
mod row;
mod runs;
mod scripts;
mod spend;
mod vectors;
mod verdict;

use vectors::Vectors;

fn main(rt: HostRuntime) -> anyhow::Result<()> {
    let mut vectors = Vectors::new(rt.alloc())?;
    for line in rt.lines(rt.alloc()) {
        take(&rt, &mut vectors, line?.as_str())?;
    }
    Ok(())
}

/// Takes a line, and prints what came of the run that it asks for.
fn take(rt: &(impl Print + AllocGlobal), vectors: &mut Vectors, line: &str) -> anyhow::Result<()> {
    if let Some(verdict) = vectors.take(rt.alloc(), line)? {
        println!(rt; "{verdict}")?;
    }
    Ok(())
}
