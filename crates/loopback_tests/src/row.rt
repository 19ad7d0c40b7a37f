//! A row: what the peers do, and how serving has to end.

use crate::act::{Act, Deed, side_of};
use crate::serving::served;
use bridge_run::ServeEnd;
use bridge_serve::AfterLoss;
use hex::FromHexError;
use named_packets::Packets;
use std::alloc::{AllocError, Global};
use std::net::{Net, TcpListener, TcpStream};
use std::rt::Clock;
use usb_base::Memory;

/// What the peers do, one act after another, and where a line is none.
#[derive(Drop)]
pub struct Row {
    name: String,
    acts: Vec<Act>,
    is_known: bool,
}

impl Row {
    /// A row without a name or acts.
    pub fn new(alloc: Global) -> Row {
        Row {
            name: String::new(alloc),
            acts: Vec::new(alloc),
            is_known: true,
        }
    }

    /// Begins another row.
    pub fn start(&mut self, alloc: Global, name: &str) -> Result<(), Memory> {
        self.name = name.to_string(alloc)?;
        self.acts.clear();
        self.is_known = true;
        Ok(())
    }

    /// Appends the act that a line says.
    pub fn push(
        &mut self,
        alloc: Global,
        packets: &Packets,
        line: &str,
        turn: u32,
    ) -> Result<(), Memory> {
        let (letter, rest) = line.split_once(' ').unwrap_or((line, ""));
        let (verb, words) = rest.split_once(' ').unwrap_or((rest, ""));
        let (Some(side), Some(deed)) = (side_of(letter), Deed::named(verb)) else {
            self.is_known = false;
            return Ok(());
        };
        let bytes = bytes_of(alloc, packets, words, turn)?;
        self.acts.push(Act { side, deed, bytes })?;
        Ok(())
    }

    /// Serves between these peers, and says by the row's name whether they did all that, and serving ended so.
    pub fn run<R: Eprint + Clock + AllocGlobal + Net<Stream = TcpStream, Listener = TcpListener>>(
        &self,
        rt: &R,
        setting: &str,
        end: &str,
    ) -> anyhow::Result<String> {
        let name = &self.name;
        let alloc = rt.alloc();
        let after_loss = match setting {
            "close" => AfterLoss::Close,
            _ => AfterLoss::Keep,
        };
        let outcome = served(rt, &self.acts, after_loss)?;
        let ended = word_of(outcome.end);
        if self.is_known && outcome.done == self.acts.len() && ended == end {
            return Ok(format!(in alloc; "{name}, {setting}: ok")?);
        }
        let done = outcome.done;
        Ok(format!(in alloc;
            "{name}, {setting}: {done} acts were done, and serving ended: {ended}"
        )?)
    }
}

/// The bytes of packets, each by its name and its numbers. Words that are none give no bytes.
fn bytes_of(alloc: Global, packets: &Packets, words: &str, turn: u32) -> Result<Vec<u8>, Memory> {
    let mut digits = String::new(alloc);
    for word in words.split_whitespace() {
        packets.push(&mut digits, word, turn)?;
    }
    match hex::decode(alloc, digits.as_str()) {
        Ok(bytes) => Ok(bytes),
        Err(FromHexError::OutOfMemory) => Err(AllocError.into()),
        Err(_) => Ok(Vec::new(alloc)),
    }
}

/// The word for an end.
fn word_of(end: ServeEnd) -> &'static str {
    match end {
        ServeEnd::Ended { refused: None } => "ended",
        ServeEnd::Ended { refused: Some(_) } => "refused",
        ServeEnd::Idle => "idle",
        ServeEnd::LinkFault(_) => "fault",
        ServeEnd::WriteFault | ServeEnd::Spent | ServeEnd::Memory => "other",
    }
}
