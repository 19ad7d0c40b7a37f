//! Doors of a program that opens no socket.

ghost use Rattle.std.specs.Prelude.{◌≡◌, IsErr};
ghost use Rattle.gate_outside.specs.NoDoors.{failed_at};

use crate::doors::Doors;
use crate::fault::Failed;
use crate::turn::Polled;
use std::marker::Model;
use usb_base::Side;

/// No link ever comes up: each call that would open one fails.
#[derive(Drop)]
pub struct NoDoors {
    client_faults: u64,
    host_faults: u64,
}

impl Model for NoDoors {
    ghost use Rattle.gate_outside.specs.NoDoors.{SideFaults};

    ghost Value = { SideFaults };

    ghost view = { λ doors. record { client = doors.client_faults; host = doors.host_faults } };
}

impl NoDoors {
    /// Doors that haven't failed yet.
    pub fn new() -> Self
        ensures client { result.client ≡ 0 }
        ensures host { result.host ≡ 0 }
    {
        NoDoors {
            client_faults: 0,
            host_faults: 0,
        }
    }

    fn fail(&mut self, side: Side) -> Failed
        ensures { self.new ≡ failed_at side self.old }
    {
        match side {
            Side::Client => self.client_faults = self.client_faults.saturating_add(1),
            Side::Host => self.host_faults = self.host_faults.saturating_add(1),
        }
        Failed
    }
}

/// Each call but `close` fails, and counts as a fault of its side. So a call that needs a link or a door
/// elsewhere needs none here.
impl Doors for NoDoors {
    ghost use Rattle.gate_outside.specs.NoDoors.{no_link, no_door, NoneGives};

    ghost link = { λ doors side. no_link doors side };

    ghost door = { λ doors. no_door };

    ghost call_gives = { λ old call new. NoneGives old call new };

    fn dial(&mut self, _addr: &str) -> Result<(), Failed>
        ensures fails { IsErr result }
        ensures count { self.new ≡ failed_at Side.Host self.old }
    {
        Err(self.fail(Side::Host))
    }

    fn listen(&mut self, _addr: &str) -> Result<(), Failed>
        ensures fails { IsErr result }
        ensures count { self.new ≡ failed_at Side.Client self.old }
    {
        Err(self.fail(Side::Client))
    }

    fn accept(&mut self) -> Result<bool, Failed>
        ensures fails { IsErr result }
        ensures count { self.new ≡ failed_at Side.Client self.old }
    {
        Err(self.fail(Side::Client))
    }

    fn poll(&mut self, side: Side, _buf: &mut [u8]) -> Polled
        ensures fails { result ≡ Polled.Failed }
        ensures count { self.new ≡ failed_at side self.old }
    {
        let Failed = self.fail(side);
        Polled::Failed
    }

    fn write(&mut self, side: Side, _piece: &[u8]) -> Result<usize, Failed>
        ensures fails { IsErr result }
        ensures count { self.new ≡ failed_at side self.old }
    {
        Err(self.fail(side))
    }

    fn close(&mut self, _side: Side)
        ensures { self.new ≡ self.old }
    {}
}
