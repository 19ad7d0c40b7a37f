//! Doors between whose calls peers act.

use crate::peers::Peers;
use gate_outside::{Doors, Failed, Polled, Side};
use std::net::{Net, TcpListener, TcpStream};

/// Doors, and the peers at their other ends, who do what they can whenever a side is asked for something.
#[derive(Drop)]
pub struct Played<'a, D: Doors, R: Net<Stream = TcpStream, Listener = TcpListener>> {
    pub doors: D,
    pub peers: Peers<'a, R>,
}

impl<'a, D: Doors, R: Net<Stream = TcpStream, Listener = TcpListener>> Doors for Played<'a, D, R> {
    ghost link = { λ played side. D.link played.doors side };

    ghost door = { λ played. D.door played.doors };

    ghost call_gives = { λ old call new. D.call_gives old.doors call new.doors };

    fn dial(&mut self, addr: &str) -> Result<(), Failed> {
        self.doors.dial(addr)
    }

    fn listen(&mut self, addr: &str) -> Result<(), Failed> {
        self.doors.listen(addr)
    }

    fn accept(&mut self) -> Result<bool, Failed> {
        self.peers.play();
        self.doors.accept()
    }

    fn poll(&mut self, side: Side, buf: &mut [u8]) -> Polled {
        self.peers.play();
        self.doors.poll(side, buf)
    }

    fn write(&mut self, side: Side, piece: &[u8]) -> Result<usize, Failed> {
        self.doors.write(side, piece)
    }

    fn close(&mut self, side: Side) {
        self.doors.close(side);
    }
}
