//! What the lines of standard input say, one after another.

use crate::row::Row;
use named_packets::Packets;
use std::alloc::Global;
use usb_base::Memory;

/// The packets that have names, and the present row.
#[derive(Drop)]
pub struct Vectors {
    packets: Packets,
    row: Row,
}

impl Vectors {
    /// The packets that programs share have names, and no row has begun.
    pub fn new(alloc: Global) -> Result<Vectors, Memory> {
        let packets = Packets::new(alloc)?;
        Ok(Vectors {
            packets,
            row: Row::new(alloc),
        })
    }

    /// Takes a line, and gives the verdict on the run that it asks for.
    pub fn take(&mut self, alloc: Global, line: &str) -> Result<Option<String>, Memory> {
        let (mark, rest) = line.split_once(' ').unwrap_or((line, ""));
        if mark == "." {
            return Ok(Some(self.row.run(alloc, rest)?));
        }
        self.set(alloc, mark, rest, line)?;
        Ok(None)
    }

    fn set(&mut self, alloc: Global, mark: &str, rest: &str, line: &str) -> Result<(), Memory> {
        match mark {
            "#" => Ok(()),
            "@" => self.packets.add(alloc, rest),
            "=" => self.row.start(alloc, rest),
            "$" => self.row.set_words(alloc, rest),
            "%" => self.row.push_printed(alloc, rest),
            "*" => self.push_times(rest),
            _ => self.push(line, 0),
        }
    }

    /// Appends lines as many times as stands before them.
    fn push_times(&mut self, counted: &str) -> Result<(), Memory> {
        let (count, lines) = counted.split_once(' ').unwrap_or((counted, ""));
        for turn in 1..=count.parse().unwrap_or(0_u32) {
            self.push(lines, turn)?;
        }
        Ok(())
    }

    /// Appends lines to the tape, and behind a bar to what is printed for them.
    fn push(&mut self, lines: &str, turn: u32) -> Result<(), Memory> {
        match lines.split_once(' ') {
            Some(("<", words)) => self.row.push_to_tape(words),
            Some((">", words)) => self.row.push_to_text(words),
            _ => {
                let (tape, text) = lines.split_once(" | ").unwrap_or((lines, ""));
                self.row.push(&self.packets, tape, text, turn)
            }
        }
    }
}
