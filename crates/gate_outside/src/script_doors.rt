//! Doors in memory.

ghost use Rattle.std.specs.Prelude.{◌≡◌, ◌<◌, [], ◌∷◌, length, true, false, IfOk, OnOk, OnErr};
ghost use Rattle.gate_outside.specs.Script.{idle_side, side_of};

use crate::doors::Doors;
use crate::fault::Failed;
use crate::script_side::ScriptSide;
use crate::turn::{Polled, Script, Scripts};
use std::alloc::Global;
use std::marker::Model;
use usb_base::{Memory, Side};

/// Links that play scripts, one to the host and one to each client. They tell all that is to come and all that
/// was written. They take their memory at once.
///
/// A poll takes the front turn: a piece is given in as many polls as the buffers need, an empty one is passed
/// over, and a script that has come to its end has ended the link. Of each side the calls of `dial`, `listen`,
/// `accept`, `poll` and `write` are counted from 0. Exactly these fail: those whose number is listed, which take
/// no turn, polls that meet a `Fail`, and writes that find no room.
#[derive(Drop)]
pub struct ScriptDoors {
    client: ScriptSide,
    host: ScriptSide,
    made: bool,
}

impl Model for ScriptDoors {
    ghost use Rattle.gate_outside.specs.Script.{ScriptSides};

    ghost Value = { ScriptSides };

    ghost view = { λ doors. record { client = doors.client; host = doors.host; made = doors.made } };
}

impl ScriptDoors {
    /// Doors for one client, with room for `room` written bytes on each side.
    pub fn make(
        alloc: Global,
        room: usize,
        host: Script,
        client: Script,
        host_fails: &[u64],
        client_fails: &[u64],
    ) -> Result<ScriptDoors, Memory>
        ensures client { IfOk result (λ doors. doors.client ≡ idle_side [] (client ∷ []) room client_fails.now) }
        ensures host { IfOk result (λ doors. doors.host ≡ idle_side host [] room host_fails.now) }
        ensures door { IfOk result (λ doors. doors.made ≡ false) }
    {
        let mut clients = Scripts::new(alloc);
        clients.push(client)?;
        ScriptDoors::make_many(alloc, room, host, clients, host_fails, client_fails)
    }

    /// Doors for clients that come one after the other, with room for `room` bytes written to all of them and
    /// for as many written to the host.
    pub fn make_many(
        alloc: Global,
        room: usize,
        host: Script,
        clients: Scripts,
        host_fails: &[u64],
        client_fails: &[u64],
    ) -> Result<ScriptDoors, Memory>
        ensures client { IfOk result (λ doors. doors.client ≡ idle_side [] clients room client_fails.now) }
        ensures host { IfOk result (λ doors. doors.host ≡ idle_side host [] room host_fails.now) }
        ensures door { IfOk result (λ doors. doors.made ≡ false) }
    {
        let mut hosts = Scripts::new(alloc);
        hosts.push(host)?;
        let client = ScriptSide::make(alloc, room, clients, client_fails)?;
        let mut host = ScriptSide::make(alloc, room, hosts, host_fails)?;
        host.begin();
        Ok(ScriptDoors {
            client,
            host,
            made: false,
        })
    }

    /// What was written to the side, to all clients one after the other.
    pub fn written(&self, side: Side) -> &[u8]
        ensures { result.now ≡ (side_of self.now side).written }
    {
        match side {
            Side::Client => self.client.written(),
            Side::Host => self.host.written(),
        }
    }
}

impl Doors for ScriptDoors {
    ghost use Rattle.gate_outside.specs.Link.{other};
    ghost use Rattle.gate_outside.specs.Doors.{TookWithin};
    ghost use Rattle.gate_outside.specs.Script.{shown, shown_door, closed_side, Counted, Opened, Began, PolledScript, WroteScript, ScriptGives};

    ghost link = { λ doors side. shown (side_of doors side) };

    ghost door = { λ doors. shown_door doors };

    ghost call_gives = { λ old call new. ScriptGives old call new };

    fn dial(&mut self, _addr: &str) -> Result<(), Failed>
        ensures host { Opened result self.old.host self.new.host }
        ensures others { self.new ≡ record self.old { host = self.new.host } }
    {
        self.host.open()
    }

    fn listen(&mut self, _addr: &str) -> Result<(), Failed>
        ensures client { Counted result self.old.client self.new.client }
        ensures made { OnOk result (self.new.made ≡ true) }
        ensures not_made { OnErr result (self.new.made ≡ self.old.made) }
        ensures host { self.new.host ≡ self.old.host }
    {
        self.client.call()?;
        self.made = true;
        Ok(())
    }

    fn accept(&mut self) -> Result<bool, Failed>
        ensures client { Began result self.old.client self.new.client }
        ensures others { self.new ≡ record self.old { client = self.new.client } }
    {
        self.client.accept()
    }

    fn poll(&mut self, side: Side, buf: &mut [u8]) -> Polled
        requires { 0 < length buf.old }
        ensures bound { TookWithin result buf.new }
        ensures turn { PolledScript result buf.new (side_of self.old side) (side_of self.new side) }
        ensures other { side_of self.new (other side) ≡ side_of self.old (other side) }
        ensures door { self.new.made ≡ self.old.made }
    {
        match side {
            Side::Client => self.client.poll(buf),
            Side::Host => self.host.poll(buf),
        }
    }

    fn write(&mut self, side: Side, piece: &[u8]) -> Result<usize, Failed>
        requires { 0 < length piece.now }
        ensures side { WroteScript result piece.now (side_of self.old side) (side_of self.new side) }
        ensures other { side_of self.new (other side) ≡ side_of self.old (other side) }
        ensures door { self.new.made ≡ self.old.made }
    {
        match side {
            Side::Client => self.client.write(piece),
            Side::Host => self.host.write(piece),
        }
    }

    fn close(&mut self, side: Side)
        ensures side { side_of self.new side ≡ closed_side side (side_of self.old side) }
        ensures other { side_of self.new (other side) ≡ side_of self.old (other side) }
        ensures door { self.new.made ≡ self.old.made }
    {
        match side {
            Side::Client => self.client.leave(),
            Side::Host => self.host.close(),
        }
    }
}
