//! The other end of a link.

use crate::act::Deed;
use std::io;
use std::io::{ErrorKind, Read, Write};
use std::net::{Shutdown, TcpStream};

/// How many calls one rests for.
const REST: usize = 32;

/// What came of an act.
#[derive(Clone, Copy, Debug, PartialEq, Eq)]
pub enum Came {
    Done,
    /// Nothing yet.
    NotYet,
    /// It can't be done any more.
    Wrong,
}

/// A peer, and how many bytes, or calls, of the present act have come.
#[derive(Drop)]
pub struct Peer {
    link: Option<TcpStream>,
    taken: usize,
}

impl Peer {
    /// A peer that hasn't come.
    pub fn new() -> Peer {
        Peer {
            link: None,
            taken: 0,
        }
    }

    /// Its link is up.
    pub fn come(&mut self, link: io::Result<TcpStream>) -> Came {
        match link.and_then(prepared) {
            Ok(link) => {
                self.link = Some(link);
                Came::Done
            }
            Err(_) => Came::Wrong,
        }
    }

    /// Goes.
    pub fn go(&mut self) {
        self.link = None;
    }

    /// Does what needs a link that is up.
    pub fn act(&mut self, deed: Deed, bytes: &[u8]) -> Came {
        match deed {
            Deed::Comes => Came::Wrong,
            Deed::Gives => self.give(bytes),
            Deed::Takes => self.take(bytes),
            Deed::Closes => self.close(),
            Deed::Breaks => self.break_off(),
            Deed::Shuts => self.shut(),
            Deed::Ends => self.end(),
            Deed::Rests => self.took(1, REST.saturating_sub(self.taken)),
        }
    }

    fn give(&self, bytes: &[u8]) -> Came {
        let Some(mut link) = self.link.as_ref() else {
            return Came::Wrong;
        };
        match link.write_all(bytes) {
            Ok(()) => Came::Done,
            Err(_) => Came::Wrong,
        }
    }

    /// Reads what is left of the bytes, as far as that has come.
    fn take(&mut self, bytes: &[u8]) -> Came {
        let mut buf = [0; 4_096];
        let left = bytes.get(self.taken..).unwrap_or(&[]);
        let room = left.len().min(buf.len());
        match self.read(&mut buf[..room]) {
            Ok(count) if count > 0 && left.starts_with(&buf[..count.min(room)]) => {
                self.took(count, left.len())
            }
            Err(error) if error.kind() == ErrorKind::WouldBlock => Came::NotYet,
            _ => Came::Wrong,
        }
    }

    /// So many of the bytes left have come.
    fn took(&mut self, count: usize, left: usize) -> Came {
        if count < left {
            self.taken = self.taken.saturating_add(count);
            return Came::NotYet;
        }
        self.taken = 0;
        Came::Done
    }

    fn read(&self, buf: &mut [u8]) -> io::Result<usize> {
        match self.link.as_ref() {
            Some(mut link) => link.read(buf),
            None => Ok(0),
        }
    }

    /// Closes its link, where nothing is left to read.
    fn close(&mut self) -> Came {
        let mut next = [0; 1];
        match self.read(&mut next) {
            Err(error) if error.kind() == ErrorKind::WouldBlock => {
                self.go();
                Came::Done
            }
            _ => Came::Wrong,
        }
    }

    /// Closes its link once something has come, and leaves that unread.
    fn break_off(&mut self) -> Came {
        let mut next = [0; 1];
        let Some(link) = self.link.as_ref() else {
            return Came::Wrong;
        };
        let looked = link.peek(&mut next);
        self.go_behind(looked, 1)
    }

    /// Closes its link where so many bytes are there: one, or none at the end.
    fn go_behind(&mut self, looked: io::Result<usize>, count: usize) -> Came {
        match looked {
            Ok(there) if there == count => {
                self.go();
                Came::Done
            }
            Err(error) if error.kind() == ErrorKind::WouldBlock => Came::NotYet,
            _ => Came::Wrong,
        }
    }

    fn shut(&self) -> Came {
        match self.link.as_ref() {
            Some(link) if link.shutdown(Shutdown::Write).is_ok() => Came::Done,
            _ => Came::Wrong,
        }
    }

    fn end(&mut self) -> Came {
        let mut next = [0; 1];
        let read = self.read(&mut next);
        self.go_behind(read, 0)
    }
}

/// A link whose calls don't wait, and whose bytes go at once.
fn prepared(link: TcpStream) -> io::Result<TcpStream> {
    link.set_nodelay(true)?;
    link.set_nonblocking(true)?;
    Ok(link)
}
