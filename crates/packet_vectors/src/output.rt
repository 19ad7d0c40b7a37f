//! The text that comes of a row.

use std::alloc::{AllocError, Global};
use usb_base::{Bytes, Memory};

/// A text that grows. What appends to it doesn't ask whether memory was left, nor whether the words of the row could be
/// read: who takes the text does.
#[derive(Drop)]
pub struct Output {
    /// What appends to it allocates from this.
    pub alloc: Global,
    /// The text so far.
    pub bytes: Bytes,
    /// What was told where memory wasn't left for all of it.
    want: Option<Memory>,
    /// Whether all words could be read.
    is_read: bool,
}

impl Output {
    /// No text.
    pub fn new(alloc: Global) -> Output {
        Output {
            alloc,
            bytes: Bytes::new(alloc),
            want: None,
            is_read: true,
        }
    }

    /// The text, where memory was left for all of it. Where words couldn't be read it says so, and no more.
    pub fn taken(self) -> Result<Bytes, Memory> {
        let Output {
            alloc,
            bytes,
            want,
            is_read,
        } = self;
        match (want, is_read) {
            (None, true) => Ok(bytes),
            (None, false) => Bytes::copied(alloc, b"the row can't be read\n"),
            (Some(memory), _) => Err(memory),
        }
    }

    /// Whether memory was left for all of it.
    pub fn whole(&self) -> Result<(), Memory> {
        self.want.map_or(Ok(()), Err)
    }

    /// Notes that words can't be read.
    pub fn refuse(&mut self) {
        self.is_read = false;
    }

    /// What was read of words. Where they can't be read that is noted, and a default goes on.
    pub fn read<T: Default, E: Drop>(&mut self, read: Result<T, E>) -> T {
        match read {
            Ok(value) => value,
            Err(_) => {
                self.refuse();
                T::default()
            }
        }
    }

    /// Notes whether memory was left for a part.
    pub fn note(&mut self, part: Result<(), Memory>) {
        if let Err(memory) = part {
            self.want = Some(memory);
        }
    }

    /// Appends bytes.
    pub fn append(&mut self, piece: &[u8]) {
        let part = self.bytes.append(piece);
        self.note(part);
    }

    /// Appends a text.
    pub fn text(&mut self, text: &str) {
        self.append(text.as_bytes());
    }

    /// Appends a text that was made, where memory was left for it.
    pub fn made(&mut self, text: Result<String, AllocError>) {
        match text {
            Ok(text) => self.text(text.as_str()),
            Err(error) => self.want = Some(error.into()),
        }
    }

    /// Appends bytes in hexadecimal, or `-` where there are none.
    pub fn hex(&mut self, bytes: &[u8]) {
        if bytes.is_empty() {
            self.text("-");
        } else {
            self.made(hex::encode(self.alloc, bytes));
        }
    }

    /// Appends a number in decimal between two texts.
    pub fn number(&mut self, before: &str, number: u64, behind: &str) {
        self.made(format!(in self.alloc; "{before}{number}{behind}"));
    }

    /// Appends numbers in decimal, each with a space in front.
    pub fn numbers(&mut self, numbers: &[i64]) {
        self.joined(" ", numbers);
    }

    /// Appends numbers in decimal, each behind a mark.
    fn joined(&mut self, mark: &str, numbers: &[i64]) {
        for number in numbers {
            self.made(format!(in self.alloc; "{mark}{number}"));
        }
    }

    /// Appends a space, and four numbers in decimal with colons between them.
    pub fn four(&mut self, numbers: [i64; 4]) {
        self.joined(" ", &numbers[..1]);
        self.joined(":", &numbers[1..]);
    }

    /// Appends a name and numbers as a line.
    pub fn line(&mut self, name: &str, numbers: &[i64]) {
        self.text(name);
        self.numbers(numbers);
        self.text("\n");
    }
}
