//! The ids of the packets that start and stop the streams of endpoints.

ghost use Rattle.std.specs.Prelude.{◌≡◌};
ghost use Rattle.std.specs.List.{list_any};
ghost use Rattle.gate_history.specs.state.Ids.{holds};
ghost use Rattle.gate_history.specs.state.StreamIds.{no_stream_ids, started, stopped, ids_of_streams, lifted};
ghost use Rattle.gate_parts.specs.state.Ids.{greatest_in, greatest_of, is_id};

use std::marker::Model;
use usb_base::{ENDPOINTS, EpAddr};

/// Of each endpoint's place in the table the id of its last start, and that of the last stop after it.
#[derive(Clone, Copy)]
pub struct StreamIds {
    started: [Option<u64>; ENDPOINTS],
    stopped: [Option<u64>; ENDPOINTS],
    /// The greatest of these ids, or 0: one that is drawn anew is mostly above it, and so is none of them.
    greatest: u64,
}

impl Model for StreamIds {
    ghost use Rattle.std.specs.Prelude.{◌≡◌};
    ghost use Rattle.std.proofs.Common.{sym};
    ghost use Rattle.gate_history.specs.state.StreamIds.{StreamIds as StreamIdsView};
    ghost use Rattle.gate_parts.specs.state.Ids.{greatest_of};

    ghost Value = { StreamIdsView };

    ghost view = { λ stream_ids. record { started = stream_ids.started; stopped = stream_ids.stopped } };

    ghost invariant = { λ stream_ids. stream_ids.greatest ≡ greatest_of stream_ids.started stream_ids.stopped };

    ghost inverse = { λ stream_ids. record { started = stream_ids.started; stopped = stream_ids.stopped; greatest = greatest_of stream_ids.started stream_ids.stopped } };

    ghost inverse_ok = { λ stream_ids is i. record { started = stream_ids.started; stopped = stream_ids.stopped; greatest = sym is i } };
}

impl StreamIds {
    /// None was started.
    pub fn none() -> StreamIds
        ensures { result ≡ no_stream_ids }
    {
        StreamIds {
            started: [None; ENDPOINTS],
            stopped: [None; ENDPOINTS],
            greatest: 0,
        }
    }

    /// An endpoint's stream is started with this id.
    pub fn start(&mut self, ep: EpAddr, id: u64)
        ensures { self.new ≡ started ep id self.old }
    {
        self.started[ep.index()] = Some(id);
        self.stopped[ep.index()] = None;
        self.greatest = greatest_of(&self.started, &self.stopped);
    }

    /// An endpoint's stream is stopped with this id.
    pub fn stop(&mut self, ep: EpAddr, id: u64)
        ensures { self.new ≡ stopped ep id self.old }
    {
        self.stopped[ep.index()] = Some(id);
        self.greatest = greatest_of(&self.started, &self.stopped);
    }

    /// Whether an id is one of these.
    pub fn holds(&self, id: u64) -> bool
        ensures { result ≡ holds (ids_of_streams self.now) id }
    {
        id <= self.greatest && (any_is(&self.started, id) || any_is(&self.stopped, id))
    }
}

fn greatest_of(started: &[Option<u64>], stopped: &[Option<u64>]) -> u64
    ensures { result ≡ greatest_of started.now stopped.now }
{
    greatest_in(started).max(greatest_in(stopped))
}

fn greatest_in(ids: &[Option<u64>]) -> u64
    ensures { result ≡ greatest_in ids.now }
{
    ids.iter()
        .fold(0, |greatest: u64, id| greatest.max(id.unwrap_or(0)))
}

fn any_is(ids: &[Option<u64>], id: u64) -> bool
    ensures { result ≡ list_any (is_id id) ids.now }
{
    ids.contains(&Some(id))
}

/// What is kept once the packets that start or stop streams are sent.
#[derive(Clone, Copy)]
pub struct SentIds {
    /// Of each endpoint the ids of its last start and stop, those that were sent now among them.
    pub stream_ids: StreamIds,
    /// The id that was drawn last.
    pub last: u64,
    /// The fence where the client is gone: the id of the last stop that was sent now, or else the fence of before.
    pub fence: Option<u64>,
}

/// The fence, an id that no import passes, once the host has told of the packet with this id.
pub fn lifted(id: u64, fence: Option<u64>) -> Option<u64>
    ensures { result ≡ lifted id fence }
{
    fence.filter(|fence| *fence != id)
}
