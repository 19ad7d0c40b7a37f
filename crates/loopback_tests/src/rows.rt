//! What the lines of standard input say, one after another.

use crate::row::Row;
use named_packets::Packets;
use std::alloc::Global;
use std::net::{Net, TcpListener, TcpStream};
use std::rt::Clock;
use usb_base::Memory;

/// The packets that have names, the lines of parts that have names, and the present row.
#[derive(Drop)]
pub struct Rows {
    packets: Packets,
    parts: Vec<(String, String)>,
    row: Row,
}

impl Rows {
    /// The packets that programs share have names, and no row has begun.
    pub fn new(alloc: Global) -> Result<Rows, Memory> {
        let packets = Packets::new(alloc)?;
        Ok(Rows {
            packets,
            parts: Vec::new(alloc),
            row: Row::new(alloc),
        })
    }

    /// Takes a line, and gives the verdict on the row that it ends.
    pub fn take<R: Eprint + Clock + AllocGlobal + Net<Stream = TcpStream, Listener = TcpListener>>(
        &mut self,
        rt: &R,
        line: &str,
    ) -> anyhow::Result<Option<String>> {
        let (mark, rest) = line.split_once(' ').unwrap_or((line, ""));
        if mark == "." {
            let (setting, end) = rest.split_once(' ').unwrap_or((rest, ""));
            return Ok(Some(self.row.run(rt, setting, end)?));
        }
        self.set(rt.alloc(), mark, rest, line)?;
        Ok(None)
    }

    fn set(&mut self, alloc: Global, mark: &str, rest: &str, line: &str) -> Result<(), Memory> {
        match mark {
            "" | "#" => Ok(()),
            "@" => self.packets.add(alloc, rest),
            "%" => self.add_part(alloc, rest),
            "=" => self.row.start(alloc, rest),
            "+" => self.push_part(alloc, rest),
            _ => push(alloc, &self.packets, &mut self.row, line),
        }
    }

    /// Adds a line to a part.
    fn add_part(&mut self, alloc: Global, part: &str) -> Result<(), Memory> {
        let (name, line) = part.split_once(' ').unwrap_or((part, ""));
        let name = name.to_string(alloc)?;
        self.parts.push((name, line.to_string(alloc)?))?;
        Ok(())
    }

    /// Appends the acts of a part.
    fn push_part(&mut self, alloc: Global, name: &str) -> Result<(), Memory> {
        for (known, line) in &self.parts {
            if known.as_str() == name {
                push(alloc, &self.packets, &mut self.row, line.as_str())?;
            }
        }
        Ok(())
    }
}

/// Appends the act of a line, as many times as stands before it.
fn push(alloc: Global, packets: &Packets, row: &mut Row, line: &str) -> Result<(), Memory> {
    let Some(counted) = line.strip_prefix("* ") else {
        return row.push(alloc, packets, line, 0);
    };
    let (count, line) = counted.split_once(' ').unwrap_or((counted, ""));
    for turn in 1..=count.parse().unwrap_or(0_u32) {
        row.push(alloc, packets, line, turn)?;
    }
    Ok(())
}
