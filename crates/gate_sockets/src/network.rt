//! What the doors ask of the system.

ghost use Rattle.std.specs.Prelude.{◌≡◌, ℕ, List, Result, Option};

use crate::connection::Connection;
use crate::ready::Ready;
use mio::net::{TcpListener, TcpStream};
use std::alloc::Global;
use std::net::{Net, SocketAddr};
use std::rt::Clock;
use std::time::Duration;
use std::{io, net};

/// A network whose answers a contract can name, as those of a connection.
pub trait Network {
    ghost use Rattle.std.specs.declared.io.Error.{Error};
    ghost use Rattle.std.specs.declared.time.Duration.{Duration as Time};

    type Stream: Connection;

    type Door: Drop;

    /// What dialling gives: the address, and the answer.
    ghost dial_gives: { List ℕ → Result Self.Stream Error → Type 0 };

    /// What making a door gives: the address, and the answer.
    ghost listen_gives: { List ℕ → Result Self.Door Error → Type 0 };

    /// What looking at a door gives: the door before it, the answer, and the door after it.
    ghost accept_gives: { Self.Door → Result Self.Stream Error → Self.Door → Type 0 };

    /// What the clock tells.
    ghost time_gives: { Option Time → Type 0 };

    /// Dials a host's name or IP address with a port.
    fn dial_at(&self, addr: &str) -> io::Result<Self::Stream>
        ensures gives { dial_gives addr.now result };

    /// Makes a door at a host's name or IP address with a port, which can be waited for.
    fn listen_at(&self, addr: &str, ready: &Ready) -> io::Result<Self::Door>
        ensures gives { listen_gives addr.now result };

    /// The next client at the door, if one waits.
    fn accept_at(&self, door: &mut Self::Door) -> io::Result<Self::Stream>
        ensures gives { accept_gives door.old result door.new };

    /// Where the door is, if the system tells it.
    fn address(&self, door: &Self::Door) -> Option<SocketAddr>;

    /// The time since some moment, if the system tells it.
    fn time(&self) -> Option<Duration>
        ensures gives { time_gives result };

    /// Sets of sockets that can be waited for, with none in them.
    fn ready(&self, alloc: Global) -> io::Result<Ready>;
}

impl<R: Net<Stream = net::TcpStream, Listener = net::TcpListener> + Clock> Network for R {
    type Stream = TcpStream;

    type Door = TcpListener;

    ghost dial_gives = { λ addr answer. Unit {0} };

    ghost listen_gives = { λ addr answer. Unit {0} };

    ghost accept_gives = { λ old answer new. new ≡ old };

    ghost time_gives = { λ answer. Unit {0} };

    fn dial_at(&self, addr: &str) -> io::Result<TcpStream> {
        let stream = net::TcpStream::connect(self, addr)?;
        stream.set_nonblocking(true)?;
        Ok(TcpStream::from_std(stream))
    }

    fn listen_at(&self, addr: &str, ready: &Ready) -> io::Result<TcpListener> {
        let door = net::TcpListener::bind(self, addr)?;
        door.set_nonblocking(true)?;
        let mut door = TcpListener::from_std(door);
        ready.add_door(&mut door)?;
        Ok(door)
    }

    fn accept_at(&self, door: &mut TcpListener) -> io::Result<TcpStream> {
        let (stream, _) = door.accept()?;
        Ok(stream)
    }

    fn address(&self, door: &TcpListener) -> Option<SocketAddr> {
        door.local_addr().ok()
    }

    fn time(&self) -> Option<Duration> {
        self.monotonic().ok()
    }

    fn ready(&self, alloc: Global) -> io::Result<Ready> {
        Ready::new(self, alloc)
    }
}
