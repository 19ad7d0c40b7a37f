//! The links to both sides.

ghost use Rattle.std.specs.Prelude.{◌≡◌, ◌<◌, IsTrue, false, length};

use crate::fault::Failed;
use crate::turn::Polled;
use usb_base::Side;

/// The links to the client, who comes to a door, and to the host, whom the gateway dials. What a call doesn't
/// name stands, on both sides. Each link has a count of faults, which rises at each failure, and a count of
/// idle answers, which rises where there is nothing yet.
pub trait Doors {
    ghost use Rattle.usb_base.specs.declared.side.Side.{Side as SideOf};
    ghost use Rattle.gate_outside.specs.Calls.{Call, Dial, Listen, Accept, Poll, Write, Close};
    ghost use Rattle.gate_outside.specs.Link.{Link, Door, other};
    ghost use Rattle.gate_outside.specs.Doors.{Dials, Listens, Accepts, Writes, Polls, TookWithin, closes};

    /// One side's link.
    ghost link: { Self → SideOf → Link };

    /// The door that clients come to, one after the other.
    ghost door: { Self → Door };

    /// What a call does: the doors before it, the call with its answer, and the doors after it. It is a relation that
    /// whoever is generic in the doors knows nothing of, so that only a call can show it.
    ghost call_gives: { Self → Call → Self → Type 0 };

    /// Dials the host at `addr`, a host's name or IP address and a port.
    fn dial(&mut self, addr: &str) -> Result<(), Failed>
        ensures link { Dials result (link self.old Side.Host) (link self.new Side.Host) }
        ensures other { link self.new Side.Client ≡ link self.old Side.Client }
        ensures door { door self.new ≡ door self.old }
        ensures gives { call_gives self.old (Dial addr.now result) self.new };

    /// Makes the clients' door at `addr`, a host's name or IP address and a port.
    fn listen(&mut self, addr: &str) -> Result<(), Failed>
        ensures listens { Listens result (door self.old) (door self.new)
            (link self.old Side.Client) (link self.new Side.Client) }
        ensures other { link self.new Side.Host ≡ link self.old Side.Host }
        ensures gives { call_gives self.old (Listen addr.now result) self.new };

    /// Whether the next client has come, whose link is then up. It waits for a moment at most.
    fn accept(&mut self) -> Result<bool, Failed>
        requires door { IsTrue (door self.old).made }
        requires down { (link self.old Side.Client).up ≡ false }
        ensures accepts { Accepts result (door self.old) (door self.new)
            (link self.old Side.Client) (link self.new Side.Client) }
        ensures other { link self.new Side.Host ≡ link self.old Side.Host }
        ensures gives { call_gives self.old (Accept result) self.new };

    /// What the side's link has to give now. It may wait for a moment, and no longer.
    fn poll(&mut self, side: Side, buf: &mut [u8]) -> Polled
        requires up { IsTrue (link self.old side).up }
        requires room { 0 < length buf.old }
        ensures bound { TookWithin result buf.new }
        ensures link { Polls result buf.new (link self.old side) (link self.new side) }
        ensures other { link self.new (other side) ≡ link self.old (other side) }
        ensures door { door self.new ≡ door self.old }
        ensures gives { call_gives self.old (Poll side result buf.new) self.new };

    /// Writes a front of `piece` to the side's link, at least one byte of it, and returns how many. A call
    /// that fails writes none.
    fn write(&mut self, side: Side, piece: &[u8]) -> Result<usize, Failed>
        requires up { IsTrue (link self.old side).up }
        requires some { 0 < length piece.now }
        ensures link { Writes result piece.now (link self.old side) (link self.new side) }
        ensures other { link self.new (other side) ≡ link self.old (other side) }
        ensures door { door self.new ≡ door self.old }
        ensures gives { call_gives self.old (Write side piece.now result) self.new };

    /// Takes the side's link down, if it is up. What a client had still to send is lost.
    fn close(&mut self, side: Side)
        ensures link { link self.new side ≡ closes side (link self.old side) }
        ensures other { link self.new (other side) ≡ link self.old (other side) }
        ensures door { door self.new ≡ door self.old }
        ensures gives { call_gives self.old (Close side) self.new };
}
