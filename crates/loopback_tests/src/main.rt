//! Peers that come and go on loopback, as the rows of standard input say, between whom the gateway serves over real
//! sockets. For each row a line says whether all was as it stands there. The rows' form is explained at their head.
#![tactic(auto)]

mod act;
mod peer;
mod peers;
mod played;
mod row;
mod rows;
mod serving;

use rows::Rows;
use std::net;
use std::net::Net;
use std::rt::Clock;

fn main(rt: HostRuntime) -> anyhow::Result<()> {
    let mut rows = Rows::new(rt.alloc())?;
    for line in rt.lines(rt.alloc()) {
        take(&rt, &mut rows, line?.as_str())?;
    }
    Ok(())
}

/// Takes a line, and prints what came of the row that it ends.
fn take(
    rt: &(impl Print
        + Eprint
        + Clock
        + AllocGlobal
        + Net<Stream = net::TcpStream, Listener = net::TcpListener>),
    rows: &mut Rows,
    line: &str,
) -> anyhow::Result<()> {
    if let Some(verdict) = rows.take(rt, line)? {
        println!(rt; "{verdict}")?;
    }
    Ok(())
}
