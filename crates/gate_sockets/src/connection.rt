//! One connection of the system.

ghost use Rattle.std.specs.Prelude.{◌≡◌, ℕ, Bool, List, Result, is_ok};
ghost use Rattle.std.specs.Io.{ReadsAtMost, WritesAtMost};

use crate::ready::Ready;
use gate_outside::Side;
use mio::net::TcpStream;
use std::io;
use std::io::{Read, Write};
use std::net::SocketAddr;

/// A connection whose answers a contract can name. What a call does is a relation that whoever is generic in the
/// connection knows nothing of, so that only a call can show it.
pub trait Connection: Drop {
    ghost use Rattle.std.specs.declared.io.Error.{Error};

    /// What a read does: the connection before it, the buffer after it, the answer, and the connection after it.
    ghost read_gives: { Self → List ℕ → Result ℕ Error → Self → Type 0 };

    /// What a write does: the connection before it, the piece, the answer, and the connection after it.
    ghost write_gives: { Self → List ℕ → Result ℕ Error → Self → Type 0 };

    /// What setting up does: the connection before it, whether it could be set up, and the connection after it.
    ghost set_up_gives: { Self → Bool → Self → Type 0 };

    /// Reads once, and returns how many bytes are now at the front of `buf`: none at the end.
    fn read_once(&mut self, buf: &mut [u8]) -> io::Result<usize>
        ensures bound { ReadsAtMost result buf.new }
        ensures gives { read_gives self.old buf.new result self.new };

    /// Writes once, and returns how many bytes of the piece were taken.
    fn write_once(&mut self, piece: &[u8]) -> io::Result<usize>
        ensures bound { WritesAtMost result piece.now }
        ensures gives { write_gives self.old piece.now result self.new };

    /// Makes that bytes go at once, and that the connection of this side can be waited for.
    fn set_up(&mut self, side: Side, ready: &mut Ready) -> io::Result<()>
        ensures gives { set_up_gives self.old (is_ok result) self.new };

    /// The other end, where the system tells it.
    fn peer(&self) -> Option<SocketAddr>;
}

impl Connection for TcpStream {
    ghost read_gives = { λ old buf answer new. ReadsAtMost answer buf × (new ≡ old) };

    ghost write_gives = { λ old piece answer new. WritesAtMost answer piece × (new ≡ old) };

    ghost set_up_gives = { λ old done new. Unit {0} };

    fn read_once(&mut self, buf: &mut [u8]) -> io::Result<usize> {
        self.read(buf)
    }

    fn write_once(&mut self, piece: &[u8]) -> io::Result<usize> {
        self.write(piece)
    }

    fn set_up(&mut self, side: Side, ready: &mut Ready) -> io::Result<()> {
        self.set_nodelay(true)?;
        ready.add(side, self)
    }

    fn peer(&self) -> Option<SocketAddr> {
        self.peer_addr().ok()
    }
}
