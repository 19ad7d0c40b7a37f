//! The peers on both sides of the gateway.

use crate::act::{Act, Deed};
use crate::peer::{Came, Peer};
use gate_outside::Side;
use std::net::{Net, TcpListener, TcpStream};

/// A host that is dialled at `hosts`, clients that come to `door`, and what they do.
#[derive(Drop)]
pub struct Peers<'a, R: Net<Stream = TcpStream, Listener = TcpListener>> {
    pub rt: &'a R,
    pub hosts: &'a TcpListener,
    pub door: &'a str,
    pub acts: &'a [Act],
    /// How many acts are done.
    pub done: usize,
    pub host: Peer,
    pub client: Peer,
}

impl<'a, R: Net<Stream = TcpStream, Listener = TcpListener>> Peers<'a, R> {
    /// Does what can be done now. Where an act went wrong both peers are gone.
    pub fn play(&mut self) {
        let acts = self.acts;
        for act in acts.iter().skip(self.done) {
            match self.act(act) {
                Came::Done => self.done = self.done.saturating_add(1),
                Came::NotYet => return,
                Came::Wrong => {
                    self.host.go();
                    self.client.go();
                    return;
                }
            }
        }
    }

    fn act(&mut self, act: &Act) -> Came {
        match (act.deed, act.side) {
            (Deed::Comes, Side::Client) => self.client.come(TcpStream::connect(self.rt, self.door)),
            (Deed::Comes, Side::Host) => self.host.come(self.hosts.accept().map(|came| came.0)),
            (deed, Side::Client) => self.client.act(deed, &act.bytes),
            (deed, Side::Host) => self.host.act(deed, &act.bytes),
        }
    }
}
