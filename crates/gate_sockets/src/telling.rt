//! What the doors say on standard error: a line for each link that comes or goes, and for each fault. Where a line
//! can't be written, nothing else changes.

use gate_outside::Side;
use std::net::SocketAddr;
use std::{fmt, io};

/// One end of a link.
#[derive(Clone, Copy)]
pub(crate) struct Peer {
    pub(crate) side: Side,
    pub(crate) addr: Option<SocketAddr>,
}

impl fmt::Display for Peer {
    fn fmt<W: fmt::Write>(&self, f: &mut fmt::Formatter<W>) -> fmt::Result {
        f.write_str(self.side.name())?;
        match self.addr {
            Some(addr) => write!(f, " {addr}"),
            None => Ok(()),
        }
    }
}

/// A link is up.
pub(crate) fn came(rt: &impl Eprint, peer: Peer) {
    let _ = rt.eprintln(format_args!("usbgate: {peer} is there"));
}

/// The door is made.
pub(crate) fn listens(rt: &impl Eprint, addr: &str, at: Option<SocketAddr>) {
    let _ = match at {
        Some(at) => rt.eprintln(format_args!("usbgate: listening on {at}")),
        None => rt.eprintln(format_args!("usbgate: listening on {addr}")),
    };
}

/// An address can't be dialled or listened at.
pub(crate) fn fails(rt: &impl Eprint, addr: &str, error: &io::Error) {
    let _ = rt.eprintln(format_args!("usbgate: {addr}: {error}"));
}

/// A client that stands at the door can't be let in.
pub(crate) fn wants(rt: &impl Eprint, error: &io::Error) {
    let _ = rt.eprintln(format_args!("usbgate: a client can't be let in yet: {error}"));
}

/// A peer has ended its link, or the link has broken.
pub(crate) fn left(rt: &impl Eprint, peer: Peer, why: Option<&io::Error>) {
    let _ = match why {
        Some(why) => rt.eprintln(format_args!("usbgate: {peer} has left: {why}")),
        None => rt.eprintln(format_args!("usbgate: {peer} has left: it closed its link")),
    };
}

/// A link is closed from here.
pub(crate) fn let_go(rt: &impl Eprint, peer: Peer, why: &str) {
    let _ = rt.eprintln(format_args!("usbgate: {peer} is let go: {why}"));
}

/// A peer takes nothing any more.
pub(crate) fn stuck(rt: &impl Eprint, peer: Peer) {
    let _ = rt.eprintln(format_args!("usbgate: {peer} has read nothing for long"));
}
