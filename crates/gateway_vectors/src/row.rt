//! A row: the words of a run, its tape, and the text that it has to print.

use crate::case::Case;
use crate::how::{How, PLAIN};
use crate::lines::{push_characters, push_lines, push_plain};
use crate::runs::{Came, ran};
use crate::verdict::told;
use named_packets::Packets;
use std::alloc::Global;
use usb_base::Memory;

/// What a row says. Its words are those of the row before until it has its own.
#[derive(Drop)]
pub struct Row {
    name: String,
    words: Vec<String>,
    tape: String,
    text: String,
    runs: u32,
}

impl Row {
    /// A row without a name, words, tape or text.
    pub fn new(alloc: Global) -> Row {
        Row {
            name: String::new(alloc),
            words: Vec::new(alloc),
            tape: String::new(alloc),
            text: String::new(alloc),
            runs: 0,
        }
    }

    /// Begins another row.
    pub fn start(&mut self, alloc: Global, name: &str) -> Result<(), Memory> {
        self.tape = String::new(alloc);
        self.text = String::new(alloc);
        self.name = name.to_string(alloc)?;
        self.runs = 0;
        Ok(())
    }

    /// The words of this row, and of those behind it, with spaces between them.
    pub fn set_words(&mut self, alloc: Global, words: &str) -> Result<(), Memory> {
        self.words.clear();
        for word in words.split_whitespace() {
            let mut plain = String::new(alloc);
            push_plain(&mut plain, word)?;
            self.words.push(plain)?;
        }
        Ok(())
    }

    /// Appends lines to the tape and to the text.
    pub fn push(
        &mut self,
        packets: &Packets,
        tape: &str,
        text: &str,
        turn: u32,
    ) -> Result<(), Memory> {
        push_lines(packets, &mut self.tape, tape, turn)?;
        push_lines(packets, &mut self.text, text, turn)
    }

    /// Appends characters to the tape, whatever they are.
    pub fn push_to_tape(&mut self, words: &str) -> Result<(), Memory> {
        push_characters(&mut self.tape, words)
    }

    /// Appends characters to the text, likewise.
    pub fn push_to_text(&mut self, words: &str) -> Result<(), Memory> {
        push_characters(&mut self.text, words)
    }

    /// Appends to the tape what these words print.
    pub fn push_printed(&mut self, alloc: Global, words: &str) -> Result<(), Memory> {
        let mut list = Vec::new(alloc);
        for word in words.split_whitespace() {
            list.push(word)?;
        }
        let case = Case {
            words: &list,
            lines: "",
            how: &PLAIN,
        };
        let came = ran(alloc, case)?;
        self.tape.push_str(came.text.as_str())?;
        Ok(())
    }

    /// Runs the words over the tape, and says by the row's name whether it printed the text and had this end.
    pub fn run(&mut self, alloc: Global, end: &str) -> Result<String, Memory> {
        self.runs = self.runs.saturating_add(1);
        let verdict = self.verdict(alloc, end)?;
        let name = &self.name;
        match self.runs {
            1 => Ok(format!(in alloc; "{name}: {verdict}")?),
            run => Ok(format!(in alloc; "{name}, run {run}: {verdict}")?),
        }
    }

    fn verdict(&self, alloc: Global, end: &str) -> Result<String, Memory> {
        let (end, marks) = end.split_once(' ').unwrap_or((end, ""));
        let how = How::read(marks);
        if !how.is_known {
            return Ok("a mark that is none".to_string(alloc)?);
        }
        let came = self.came(alloc, &how)?;
        told(alloc, &came, self.text.as_str(), end, &how)
    }

    fn came(&self, alloc: Global, how: &How) -> Result<Came, Memory> {
        let mut words = Vec::new(alloc);
        for word in &self.words {
            words.push(word.as_str())?;
        }
        let case = Case {
            words: &words,
            lines: self.tape.as_str(),
            how,
        };
        ran(alloc, case)
    }
}
