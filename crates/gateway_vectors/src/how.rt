//! How a run goes.

/// How a run goes: how its tape is read and cut, how its text is written, which calls fail, and how much of the text
/// is printed then. Calls are counted from 0.
#[derive(Clone, Copy)]
pub struct How {
    /// How many bytes are read, and written, at a time.
    pub read_by: usize,
    pub write_by: usize,
    /// How many bytes can be written.
    pub room: usize,
    /// How many bytes of the text are printed.
    pub printed: usize,
    /// How many bytes each line of the tape has when it is cut, and its first piece.
    pub cut: Option<usize>,
    pub first: Option<usize>,
    /// The calls that fail: a read, a write, and a call of each side's link.
    pub read_fails: Option<u64>,
    pub write_fails: Option<u64>,
    pub host_fails: Option<u64>,
    pub client_fails: Option<u64>,
    /// How many bytes the file to record in can have, the write to it that fails, and that it is there or can't be
    /// made.
    pub tape_room: usize,
    pub tape_fails: Option<u64>,
    pub there: Option<u64>,
    pub unmade: Option<u64>,
    /// How many bytes and links may come, where no words say it.
    pub budget: Option<u64>,
    /// Some of what the session sends finds no link.
    pub unsent: Option<u64>,
    /// Only the last lines are compared.
    pub last: Option<u64>,
    /// Whether each mark is one of these.
    pub is_known: bool,
}

/// More bytes than any row writes, prints or records.
const AMPLE: usize = 1_000_000;

/// A run with nothing that stands in its way.
pub const PLAIN: How = How {
    read_by: 65_536,
    write_by: AMPLE,
    room: AMPLE,
    printed: AMPLE,
    cut: None,
    first: None,
    read_fails: None,
    write_fails: None,
    host_fails: None,
    client_fails: None,
    tape_room: AMPLE,
    tape_fails: None,
    there: None,
    unmade: None,
    budget: None,
    unsent: None,
    last: None,
    is_known: true,
};

impl How {
    /// How these marks say, as in `read-by=7 read-fails=0`.
    pub fn read(marks: &str) -> How {
        let mut how = PLAIN;
        for mark in marks.split_whitespace() {
            let (name, number) = mark.split_once('=').unwrap_or((mark, ""));
            match number.parse() {
                Ok(number) => how.set(name, number),
                Err(_) => how.is_known = false,
            }
        }
        how
    }

    fn set(&mut self, name: &str, number: usize) {
        match name {
            "read-by" => self.read_by = number,
            "write-by" => self.write_by = number,
            "room" => self.room = number,
            "printed" => self.printed = number,
            "cut" => self.cut = Some(number),
            "first" => self.first = Some(number),
            "tape-room" => self.tape_room = number,
            _ => self.set_fails(name, number as u64),
        }
    }

    fn set_fails(&mut self, name: &str, call: u64) {
        match name {
            "read-fails" => self.read_fails = Some(call),
            "write-fails" => self.write_fails = Some(call),
            "host-fails" => self.host_fails = Some(call),
            "client-fails" => self.client_fails = Some(call),
            "tape-fails" => self.tape_fails = Some(call),
            "there" => self.there = Some(call),
            "unmade" => self.unmade = Some(call),
            "budget" => self.budget = Some(call),
            "unsent" => self.unsent = Some(call),
            "last" => self.last = Some(call),
            _ => self.is_known = false,
        }
    }
}
