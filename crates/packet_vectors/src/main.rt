//! Puts the rows of standard input to the readers and writers of packets, and prints for each whether they gave what
//! stands beside it. The head of `stdin` explains the rows.
#![tactic(auto)]

mod answer;
mod buffers;
mod data_rows;
mod fronts;
mod lines;
mod next;
mod output;
mod packets;
mod reader;
mod replies;
mod rows;
mod streams;
mod tapes;
mod texts;
mod type_rows;
mod usb_words;
mod written;
mod wrong;

use crate::output::Output;
use crate::wrong::Wrong;
use rows::Rows;
use std::alloc::Global;
use usb_base::{Bytes, Memory};

fn main(rt: HostRuntime) -> Result<(), Wrong> {
    let mut rows = Rows::new(rt.alloc())?;
    for line in rt.lines(rt.alloc()) {
        take(&rt, &mut rows, line?.as_str())?;
    }
    Ok(())
}

/// Takes a line, and prints what is told of it.
fn take(rt: &(impl Print + AllocGlobal), rows: &mut Rows, line: &str) -> Result<(), Wrong> {
    let told = told_of(rt.alloc(), rows, line)?;
    Ok(rt.print(String::from_utf8_lossy(rt.alloc(), told.as_slice())?)?)
}

fn told_of(alloc: Global, rows: &mut Rows, line: &str) -> Result<Bytes, Memory> {
    let mut told = Output::new(alloc);
    rows.take(line, &mut told)?;
    told.taken()
}
