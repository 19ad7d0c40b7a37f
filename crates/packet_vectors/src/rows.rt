//! A row: a call, what it is put to, and what it has to give.

use crate::answer::push_answer;
use crate::output::Output;
use crate::texts::Texts;
use std::alloc::Global;
use usb_base::{Bytes, Memory};

/// The rows so far: the texts that have names, the group that the next row belongs to, and how many came of it.
#[derive(Drop)]
pub struct Rows {
    texts: Texts,
    group: String,
    count: u32,
}

impl Rows {
    /// No row has come.
    pub fn new(alloc: Global) -> Result<Rows, Memory> {
        let texts = Texts::new(alloc)?;
        Ok(Rows {
            texts,
            group: String::new(alloc),
            count: 0,
        })
    }

    /// Takes a line, and appends what is told of it.
    pub fn take(&mut self, line: &str, told: &mut Output) -> Result<(), Memory> {
        match line.split_once(' ') {
            Some(("@", text)) => self.texts.add(told.alloc, text),
            Some(("=", group)) => self.begin(told.alloc, group),
            Some(("#", _)) | None => Ok(()),
            Some(_) => self.check(line, told),
        }
    }

    fn begin(&mut self, alloc: Global, group: &str) -> Result<(), Memory> {
        self.group = group.to_string(alloc)?;
        self.count = 0;
        Ok(())
    }

    /// Puts a row to its call, and appends the verdict.
    fn check(&mut self, row: &str, told: &mut Output) -> Result<(), Memory> {
        self.count = self.count.saturating_add(1);
        told.text(self.group.as_str());
        told.number(" ", u64::from(self.count), ": ");
        let (call, rest) = row.split_once(" | ").unwrap_or((row, ""));
        let (input, wanted) = rest.split_once(" | ").unwrap_or((rest, ""));
        let came = answer_of(told.alloc, &self.texts, call, input)?;
        let wanted = self.texts.lines_of(told.alloc, wanted)?;
        push_verdict(came.as_slice(), wanted.as_slice(), told);
        Ok(())
    }
}

fn answer_of(alloc: Global, texts: &Texts, call: &str, input: &str) -> Result<Bytes, Memory> {
    let mut came = Output::new(alloc);
    push_answer(texts, call.trim(), input.trim(), &mut came);
    came.taken()
}

/// Appends `ok`, or where the text that came parts from the wanted one, and both from a little before that on.
fn push_verdict(came: &[u8], wanted: &[u8], told: &mut Output) {
    if came == wanted {
        told.text("ok\n");
        return;
    }
    let place = common(came, wanted);
    told.number("another text from byte ", place as u64, " on\n");
    told.text("    came:   ");
    push_around(came, place, told);
    told.text("    wanted: ");
    push_around(wanted, place, told);
}

/// How many bytes both begin with.
fn common(one: &[u8], other: &[u8]) -> usize {
    for (place, (left, right)) in one.iter().zip(other).enumerate() {
        if left != right {
            return place;
        }
    }
    one.len().min(other.len())
}

/// How many bytes are shown in front of the place where texts part, and how many behind it.
const BEFORE: usize = 80;

const BEHIND: usize = 120;

/// Appends what stands around a place as one line, with a semicolon for the end of each line.
fn push_around(text: &[u8], place: usize, told: &mut Output) {
    let first = place.saturating_sub(BEFORE);
    for byte in text.iter().skip(first).take(BEFORE + BEHIND) {
        let shown = if *byte == b'\n' { b';' } else { *byte };
        told.append(&[shown]);
    }
    told.text("\n");
}
