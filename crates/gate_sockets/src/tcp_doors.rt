//! The doors over TCP.

ghost use Rattle.std.specs.Prelude.{◌≡◌, ◌<◌, length, None, IfOk, IsOkAnd, IsTrue, is_ok};
ghost use Rattle.gate_sockets.specs.Door.{CameOnce, Came, DialledBy, MadeBy};
ghost use Rattle.gate_sockets.specs.State.{fresh, faulted, state_of, link_of, door_of};
ghost use Rattle.gate_sockets.specs.Writing.{ReadOn, WroteOnce};
ghost use Rattle.gate_outside.specs.Link.{other};

use crate::both::Both;
use crate::connection::Connection;
use crate::limits::TRIES;
use crate::network::Network;
use crate::ready::Ready;
use crate::socket::Socket;
use crate::telling;
use gate_outside::{Doors, Failed, Polled, Side};
use std::alloc::Global;
use std::io;
use std::io::ErrorKind;
use std::marker::Model;
use std::time::Duration;
use usb_base::{LONGEST_CLIENT_PACKET, LONGEST_HOST_PACKET};

/// How often a blocked write waits for its turn before anything is read ahead.
const PATIENCE: u32 = 8;

/// How many bytes of the client's link are read ahead at most: one less than its longest packet has.
const CLIENT_AHEAD: usize = LONGEST_CLIENT_PACKET - 1;

/// How many of the host's, likewise.
const HOST_AHEAD: usize = LONGEST_HOST_PACKET - 1;

/// Connections of a network. The contracts say what each call asked of them, and what they answered: a poll gives what
/// was read ahead, or is one read and tells what that gave; the bytes that a write tells as written are those that the
/// connection took; a client has come where the door gave one. Of what is to come they tell nothing.
///
/// The door stays open: a client that comes while another one is served waits until that one has left.
#[derive(Drop)]
pub struct TcpDoors<'rt, N: Network + Eprint> {
    rt: &'rt N,
    ready: Ready,
    door: Option<N::Door>,
    sockets: Both<Socket<N::Stream>>,
    /// A call has tried to open a link or the door.
    used: bool,
    /// A host was dialled.
    dialled: bool,
    /// It was told that a client can't be let in.
    wants: bool,
}

impl<'rt, N: Network + Eprint> Model for TcpDoors<'rt, N> {
    ghost use Rattle.gate_sockets.specs.State.{States};

    ghost Value = { States N.Stream N.Door };

    ghost view = { λ doors. record { client = doors.sockets.client; host = doors.sockets.host; door = doors.door } };
}

impl<'rt, N: Network + Eprint> TcpDoors<'rt, N> {
    /// Doors with no link up.
    pub fn new(rt: &'rt N, alloc: Global) -> io::Result<TcpDoors<'rt, N>>
        ensures client { IfOk result (λ doors. doors.client ≡ fresh) }
        ensures host { IfOk result (λ doors. doors.host ≡ fresh) }
        ensures door { IfOk result (λ doors. doors.door ≡ None) }
    {
        Ok(TcpDoors {
            rt,
            ready: rt.ready(alloc)?,
            door: None,
            sockets: Both {
                client: Socket::new(Side::Client, alloc),
                host: Socket::new(Side::Host, alloc),
            },
            used: false,
            dialled: false,
            wants: false,
        })
    }

    /// Whether a call has tried to open a link or the door.
    pub fn were_used(&self) -> bool {
        self.used
    }

    /// A poll that finds nothing waits from now on to the end of such an interval, one after another, also where
    /// something was written before.
    pub fn keep_pace(&mut self, interval: Duration)
        ensures { self.new ≡ self.old }
    {
        self.ready.keep_pace(interval);
    }

    fn try_dial(&mut self, addr: &str) -> io::Result<()>
        ensures { DialledBy N.dial_gives N.Stream.set_up_gives addr.now (is_ok result) self.old self.new }
    {
        let mut stream = self.rt.dial_at(addr)?;
        stream.set_up(Side::Host, &mut self.ready)?;
        self.sockets.host.open(stream);
        self.dialled = true;
        Ok(())
    }

    fn try_listen(&mut self, addr: &str) -> io::Result<()>
        ensures { MadeBy N.listen_gives addr.now (is_ok result) self.old self.new }
    {
        let door = self.rt.listen_at(addr, &self.ready)?;
        telling::listens(self.rt, addr, self.rt.address(&door));
        self.door = Some(door);
        Ok(())
    }

    /// Lets a client in that waits at the door, if the system has descriptors and buffers for it.
    fn try_accept(&mut self) -> io::Result<()>
        requires { IsTrue (door_of self.old).made }
        ensures { CameOnce N.accept_gives N.Stream.set_up_gives (is_ok result) self.old self.new }
    {
        let Some(door) = &mut self.door else {
            unreachable!()
        };
        let mut stream = self.rt.accept_at(door)?;
        stream.set_up(Side::Client, &mut self.ready)?;
        self.sockets.client.open(stream);
        Ok(())
    }

    /// Whether a client waits at the door, who is then let in. One that can't be let in hasn't come yet.
    fn let_in(&mut self) -> bool
        requires { IsTrue (door_of self.old).made }
        ensures { CameOnce N.accept_gives N.Stream.set_up_gives result self.old self.new }
    {
        match self.try_accept() {
            Ok(()) => {
                telling::came(self.rt, self.sockets.client.other_end());
                self.wants = false;
                true
            }
            Err(error) => {
                if error.kind() != ErrorKind::WouldBlock && !self.wants {
                    telling::wants(self.rt, &error);
                    self.wants = true;
                }
                false
            }
        }
    }

    /// Says that the side's link has come to its end.
    fn tell_end(&self, side: Side) {
        let socket = self.sockets.of(side);
        telling::left(self.rt, socket.other_end(), socket.why());
    }

    /// Says that the side's link is closed from here. Where a host was dialled, a client may also be let go whose
    /// device is lost.
    fn tell_close(&self, side: Side) {
        let why = match side {
            Side::Client if self.dialled => "it was refused, or its device is lost",
            Side::Client | Side::Host => "it was refused",
        };
        telling::let_go(self.rt, self.sockets.of(side).other_end(), why);
    }

    /// Looks at the door, and once more where nobody stood there at first and it was worth a wait.
    fn look(&mut self) -> bool
        requires { IsTrue (door_of self.old).made }
        ensures { Came N.accept_gives N.Stream.set_up_gives result self.old self.new }
    {
        self.let_in() || self.ready.found_nothing(self.rt) && self.let_in()
    }

    fn write_once(&mut self, side: Side, piece: &[u8]) -> Option<usize>
        requires up { IsTrue (link_of self.old side).up }
        requires some { 0 < length piece.now }
        ensures side { WroteOnce N.Stream.read_gives N.Stream.write_gives result piece.now (state_of self.old side) (state_of self.new side) }
        ensures other { state_of self.new (other side) ≡ state_of self.old (other side) }
        ensures door { self.new.door ≡ self.old.door }
    {
        self.sockets.of_mut(side).write_once(piece)
    }

    /// Waits for a moment where a write is blocked, which was tried so often before. Where it may not go on then, and
    /// has waited some moments, both links are read ahead: a peer that writes before it reads may be what it waits for.
    /// What is read ahead is copied more often than what a poll reads.
    fn wait_to_write(&mut self, tried: u32)
        ensures client { ReadOn N.Stream.read_gives N.Stream.write_gives self.old.client self.new.client }
        ensures host { ReadOn N.Stream.read_gives N.Stream.write_gives self.old.host self.new.host }
        ensures door { self.new.door ≡ self.old.door }
    {
        if !self.ready.blocked() && tried >= PATIENCE {
            self.sockets.client.read_on(CLIENT_AHEAD);
            self.sockets.host.read_on(HOST_AHEAD);
        }
    }

    fn fail(&mut self, side: Side) -> Failed
        ensures side { state_of self.new side ≡ faulted (state_of self.old side) }
        ensures other { state_of self.new (other side) ≡ state_of self.old (other side) }
        ensures door { self.new.door ≡ self.old.door }
    {
        let socket = self.sockets.of_mut(side);
        telling::stuck(self.rt, socket.other_end());
        socket.fail()
    }
}

impl<'rt, N: Network + Eprint> Doors for TcpDoors<'rt, N> {
    ghost use Rattle.usb_base.specs.declared.side.Side.TheVariants.{Client, Host};
    ghost use Rattle.gate_outside.specs.Doors.{Dials, Listens, Accepts, Polls, Writes, TookWithin};
    ghost use Rattle.gate_sockets.specs.Door.{Dials as DialsBy, Makes, IsAccepted};
    ghost use Rattle.gate_sockets.specs.Polling.{PollSteps};
    ghost use Rattle.gate_sockets.specs.Writing.{WriteSteps};
    ghost use Rattle.gate_sockets.specs.Gives.{CallGives};
    ghost use Rattle.gate_outside.specs.Calls.{Poll, Write};

    ghost link = { λ doors side. link_of doors side };

    ghost door = { λ doors. door_of doors };

    ghost call_gives = { λ old call new. CallGives (record { dials = N.dial_gives; listens = N.listen_gives; accepts = N.accept_gives; sets_up = N.Stream.set_up_gives; reads = N.Stream.read_gives; writes = N.Stream.write_gives }) old call new };

    fn dial(&mut self, addr: &str) -> Result<(), Failed>
        ensures dials { DialsBy N.dial_gives N.Stream.set_up_gives addr.now (is_ok result) self.old self.new }
        ensures link { Dials result (link_of self.old Host) (link_of self.new Host) }
        ensures other { link_of self.new Client ≡ link_of self.old Client }
        ensures door { door_of self.new ≡ door_of self.old }
    {
        self.used = true;
        match self.try_dial(addr) {
            Ok(()) => {
                telling::came(self.rt, self.sockets.host.other_end());
                Ok(())
            }
            Err(error) => {
                telling::fails(self.rt, addr, &error);
                Err(self.sockets.host.fail())
            }
        }
    }

    fn listen(&mut self, addr: &str) -> Result<(), Failed>
        ensures makes { Makes N.listen_gives addr.now (is_ok result) self.old self.new }
        ensures listens { Listens result (door_of self.old) (door_of self.new) (link_of self.old Client) (link_of self.new Client) }
        ensures other { link_of self.new Host ≡ link_of self.old Host }
    {
        self.used = true;
        match self.try_listen(addr) {
            Ok(()) => Ok(()),
            Err(error) => {
                telling::fails(self.rt, addr, &error);
                Err(self.sockets.client.fail())
            }
        }
    }

    fn accept(&mut self) -> Result<bool, Failed>
        requires { IsTrue (door_of self.old).made }
        ensures came { IsOkAnd result (λ came. IsAccepted N.accept_gives N.Stream.set_up_gives came self.old self.new) }
        ensures accepts { Accepts result (door_of self.old) (door_of self.new) (link_of self.old Client) (link_of self.new Client) }
        ensures other { link_of self.new Host ≡ link_of self.old Host }
    {
        let came = self.look();
        if !came {
            self.sockets.client.count_idle();
        }
        Ok(came)
    }

    fn poll(&mut self, side: Side, buf: &mut [u8]) -> Polled
        requires up { IsTrue (link_of self.old side).up }
        requires room { 0 < length buf.old }
        ensures bound { TookWithin result buf.new }
        ensures side { PollSteps N.Stream.read_gives result buf.new (state_of self.old side) (state_of self.new side) }
        ensures link { Polls result buf.new (link_of self.old side) (link_of self.new side) }
        ensures gives { CallGives (record { dials = N.dial_gives; listens = N.listen_gives; accepts = N.accept_gives; sets_up = N.Stream.set_up_gives; reads = N.Stream.read_gives; writes = N.Stream.write_gives }) self.old (Poll side result buf.new) self.new }
        ensures stands { state_of self.new (other side) ≡ state_of self.old (other side) }
        ensures other { link_of self.new (other side) ≡ link_of self.old (other side) }
        ensures door { self.new.door ≡ self.old.door }
    {
        let socket = self.sockets.of_mut(side);
        let polled = socket.poll(buf, &mut self.ready, self.rt);
        if let Polled::Ended = polled {
            self.tell_end(side);
        }
        polled
    }

    fn write(&mut self, side: Side, piece: &[u8]) -> Result<usize, Failed>
        requires up { IsTrue (link_of self.old side).up }
        requires some { 0 < length piece.now }
        ensures side { WriteSteps N.Stream.read_gives N.Stream.write_gives result piece.now (state_of self.old side) (state_of self.new side) }
        ensures link { Writes result piece.now (link_of self.old side) (link_of self.new side) }
        ensures read_on { ReadOn N.Stream.read_gives N.Stream.write_gives (state_of self.old (other side)) (state_of self.new (other side)) }
        ensures other { link_of self.new (other side) ≡ link_of self.old (other side) }
        ensures door { self.new.door ≡ self.old.door }
        ensures gives { CallGives (record { dials = N.dial_gives; listens = N.listen_gives; accepts = N.accept_gives; sets_up = N.Stream.set_up_gives; reads = N.Stream.read_gives; writes = N.Stream.write_gives }) self.old (Write side piece.now result) self.new }
    {
        for tried in 0..TRIES {
            if let Some(count) = self.write_once(side, piece) {
                self.ready.moved();
                return Ok(count);
            }
            self.wait_to_write(tried);
        }
        match self.write_once(side, piece) {
            Some(count) => Ok(count),
            None => Err(self.fail(side)),
        }
    }

    fn close(&mut self, side: Side) {
        self.tell_close(side);
        self.sockets.of_mut(side).close();
    }
}
