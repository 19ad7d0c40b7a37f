//! The streams that run.

ghost use Rattle.std.specs.Prelude.{◌≡◌, [], filter, OnOk, OnErr};
ghost use Rattle.std.specs.List.{find};
ghost use Rattle.redir_host.specs.guest.Packets.{runs_at, started, stopped};
ghost use Rattle.redir_host.specs.device.Changes.{runs_on};

use crate::device::change::is_touched;
use control_route::Route;
use redir_data::StreamKind;
use std::alloc::Global;
use std::marker::Model;
use usb_base::{EpAddr, EpTable, Memory};

/// A stream that runs: packets of this IN endpoint go to the guest as the device has them.
#[derive(Clone, Copy)]
pub struct Running {
    pub ep: EpAddr,
    pub kind: StreamKind,
}

/// The streams that run, at most one of an endpoint; contracts see the list of them.
#[derive(Drop)]
pub struct Streams {
    streams: Vec<Running>,
}

impl Model for Streams {
    ghost use Rattle.std.specs.Prelude.{List};
    ghost use Rattle.redir_host.specs.declared.state.running.Running.{Running};

    ghost Value = { List Running };

    ghost view = { λ s. s.streams.items };
}

impl Streams {
    /// None runs.
    pub fn new(alloc: Global) -> Self
        ensures { result ≡ [] }
    {
        Streams {
            streams: Vec::new(alloc),
        }
    }

    /// That of an endpoint.
    pub fn at(&self, ep: EpAddr) -> Option<Running>
        ensures { result ≡ find (runs_at ep) self.now }
    {
        self.streams.iter().copied().find(|s| s.runs_at(ep.byte()))
    }

    /// Starts one, in place of that which runs there.
    pub fn start(&mut self, kind: StreamKind, ep: EpAddr) -> Result<(), Memory>
        ensures ok { OnOk result (self.new ≡ started kind ep self.old) }
        ensures err { OnErr result (self.new ≡ self.old) }
    {
        self.streams.reserve(1)?;
        self.streams.retain(|s| !s.runs_at(ep.byte()));
        self.streams.push_reserved(Running { ep, kind });
        Ok(())
    }

    /// Ends that of an endpoint.
    pub fn stop(&mut self, ep: u8)
        ensures { self.new ≡ stopped ep self.old }
    {
        self.streams.retain(|s| !s.runs_at(ep));
    }

    /// Ends those that a change touches, by the table before it.
    pub fn flush(&mut self, route: &Route, table: &EpTable)
        ensures { self.new ≡ filter (runs_on route.now table.now) self.old }
    {
        self.streams.retain(|s| !is_touched(route, table, s.ep));
    }

    /// Ends all.
    pub fn clear(&mut self)
        ensures { self.new ≡ [] }
    {
        self.streams.clear();
    }
}

impl Running {
    fn runs_at(&self, ep: u8) -> bool
        ensures { result ≡ runs_at ep self.now }
    {
        self.ep.byte() == ep
    }
}
