//! The requests in flight.

ghost use Rattle.std.specs.Prelude.{◌≡◌, ◌<◌, ◌≤◌, ◌||◌, ◌-◌, not, [], ◌∷◌, ◌++◌, length, filter, take, slice_get, slice_set, option_copied, IfOk, Some};
ghost use Rattle.std.specs.List.{find, position, list_any};
ghost use Rattle.unlink_race.specs.declared.live.Live.{Live};
ghost use Rattle.unlink_race.specs.Firsts.{without_first};
ghost use Rattle.unlink_race.specs.Searches.{has_number, has_id, waits_for, ended_by, changes};
ghost use Rattle.unlink_race.specs.Requests.{no_requests, in_flight, without_at, left_behind, OneIsEmpty};
ghost use Rattle.unlink_race.specs.Unlinking.{unlinked_by};

use crate::iter::Iter;
use crate::live::{Live, StreamEnd};
use crate::table::Table;
use crate::waiting::Waiting;
use std::alloc::Global;
use std::marker::Model;
use urb_arena::Arena;
use usb_base::{ENDPOINTS, EpAddr, Memory};
use usbip_urb::MAX_LIVE;

/// A client's requests in flight, or those that a former client left with the host; contracts see both lists, in
/// order of acceptance, of which one is always empty. `make` alone takes memory: that of the arena, in one request.
#[derive(Drop)]
pub struct Lives {
    table: Table,
    // the client that sent them has gone: they are abandoned
    client_gone: bool,
}

impl Model for Lives {
    ghost use Rattle.unlink_race.specs.Requests.{Requests};
    ghost use Rattle.unlink_race.specs.Inner.Sound.{requests_of};

    ghost Value = { Requests };

    ghost view = { λ l. requests_of l.client_gone l.table };
}

impl Lives {
    /// No request, and the room for 4,096, in a lane for each endpoint.
    pub fn make(alloc: Global) -> Result<Self, Memory>
        ensures { IfOk result (λ lives. lives ≡ no_requests) }
    {
        let arena = Arena::new(alloc, MAX_LIVE, ENDPOINTS)?;
        Ok(Lives {
            table: Table::over(arena),
            client_gone: false,
        })
    }

    /// How many are live.
    pub fn len(&self) -> usize
        ensures len { result ≡ length self.now.live }
        ensures bound { result ≤ MAX_LIVE }
    {
        if self.client_gone {
            0
        } else {
            self.table.len()
        }
    }

    /// How many are abandoned.
    pub fn abandoned(&self) -> usize
        ensures len { result ≡ length self.now.abandoned }
        ensures bound { result ≤ MAX_LIVE }
    {
        if self.client_gone {
            self.table.len()
        } else {
            0
        }
    }

    /// A law: of the two lists one is empty.
    pub fn one_is_empty(&self)
        ensures { OneIsEmpty self.now }
    {
        let _client_gone = self.client_gone;
    }

    /// Whether one with this number is live.
    pub fn has(&self, seqnum: u32) -> bool
        ensures { result ≡ list_any (has_number seqnum) self.now.live }
    {
        !self.client_gone && self.table.has_seqnum(seqnum)
    }

    /// Whether an id is that of a wire or route request, live or abandoned.
    pub fn holds_id(&self, id: u64) -> bool
        ensures { result ≡ (list_any (has_id id) self.now.live || list_any (has_id id) self.now.abandoned) }
    {
        self.table.has_id(id)
    }

    /// Whether a change of the device's interfaces is live.
    pub fn change_waits(&self) -> bool
        ensures { result ≡ list_any changes self.now.live }
    {
        !self.client_gone && self.table.has_change()
    }

    /// Takes a request in, as the last, where there is room. Whether its number is live isn't looked for again: who
    /// must not have one twice has asked (`has`).
    pub fn push(&mut self, live: Live)
        requires one_client { self.old.abandoned ≡ [] }
        requires room { length self.old.live < MAX_LIVE }
        ensures { self.new ≡ record self.old { live = self.old.live ++ live ∷ [] } }
    {
        self.client_gone = false;
        self.table.push(live);
    }

    /// The live requests, in order of acceptance.
    pub fn iter(&self) -> Iter<'_>
        ensures { result ≡ self.now.live }
    {
        if self.client_gone {
            self.table.none()
        } else {
            self.table.iter()
        }
    }

    /// The live request at a place, counted from the earliest.
    pub fn at(&self, place: usize) -> Option<&Live>
        ensures { option_copied result ≡ slice_get self.now.live place }
    {
        if place < self.len() {
            Some(self.table.at(place))
        } else {
            None
        }
    }

    /// Where the wire or route request with an id stands among those in flight, live or abandoned.
    pub fn place_of_id(&self, id: u64) -> Option<usize>
        ensures { result ≡ position (has_id id) (in_flight self.now) }
    {
        self.table.place_of_id(id)
    }

    /// Where the live request with a number stands.
    pub fn place_of_number(&self, seqnum: u32) -> Option<usize>
        ensures { result ≡ position (has_number seqnum) self.now.live }
    {
        if self.client_gone {
            return None;
        }
        self.table.place_of_seqnum(seqnum)
    }

    /// The request at a place among those in flight, live or abandoned.
    pub fn held_at(&self, place: usize) -> &Live
        requires { place < length (in_flight self.now) }
        ensures { slice_get (in_flight self.now) place ≡ Some result.now }
    {
        self.table.at(place)
    }

    /// Takes it out.
    pub fn finish_at(&mut self, place: usize) -> Live
        requires { place < length (in_flight self.old) }
        ensures found { slice_get (in_flight self.old) place ≡ Some result }
        ensures rest { self.new ≡ without_at place self.old }
    {
        self.table.remove(place)
    }

    /// The unlink with the number `by` asks for the live request at a place.
    pub fn mark_at(&mut self, place: usize, by: u32)
        requires { place < length self.old.live }
        ensures { (live : Live) → slice_get self.old.live place ≡ Some live → self.new ≡ record self.old { live = slice_set self.old.live place (unlinked_by by live) } }
    {
        self.table.mark(place, by);
    }

    /// The requests that wait for the stream of an endpoint, from the earliest on.
    pub fn waiting(&self, ep: EpAddr) -> Waiting<'_>
        ensures waits { result ≡ filter (waits_for ep) self.now.live }
        ensures bound { length result ≤ MAX_LIVE }
    {
        if self.client_gone {
            self.table.none_waiting()
        } else {
            self.table.waiting(ep)
        }
    }

    /// Takes out the earliest request that waits for the stream of an endpoint.
    pub fn finish_front(&mut self, ep: EpAddr) -> Option<Live>
        ensures found { result ≡ find (waits_for ep) self.old.live }
        ensures rest { self.new ≡ record self.old { live = without_first (waits_for ep) self.old.live } }
    {
        if self.client_gone {
            return None;
        }
        self.table.take_waiting(ep)
    }

    /// Drops all requests that wait for packets of a stream that ends so.
    pub fn drop_ended(&mut self, end: &StreamEnd)
        ensures { self.new ≡ record self.old { live = filter (λ live. not (ended_by end.now live)) self.old.live } }
    {
        if !self.client_gone {
            self.table.drop_ended(end);
        }
    }

    /// Takes out the last that was taken in.
    pub fn take_last(&mut self) -> Option<Live>
        ensures found { result ≡ slice_get self.old.live (length self.old.live - 1) }
        ensures rest { self.new ≡ record self.old { live = take (length self.old.live - 1) self.old.live } }
    {
        if self.client_gone || self.table.len() == 0 {
            return None;
        }
        Some(self.table.remove(self.table.len() - 1))
    }

    /// The client goes: its wire and route requests are abandoned, and its stream requests dropped.
    pub fn abandon(&mut self)
        requires { self.old.abandoned ≡ [] }
        ensures { self.new ≡ left_behind self.old }
    {
        self.table.drop_ended(&StreamEnd::ClientGone);
        self.client_gone = true;
    }

    /// Drops the abandoned requests: the host that had them is lost.
    pub fn forget_abandoned(&mut self)
        ensures { self.new ≡ record self.old { abandoned = [] } }
    {
        if self.client_gone {
            self.table.clear();
        }
    }
}
