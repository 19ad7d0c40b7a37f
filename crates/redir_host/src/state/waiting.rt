//! The requests that wait: in a slab, and beside it their keys in order of arrival, of all and of each queue.

ghost use Rattle.std.specs.Prelude.{◌≡◌, ◌++◌, ◌∷◌, ◌+◌, ◌<◌, ◌^◌, ℕ, [], filter, length, slice_index_or, is_some, IsSome, Some, OnOk, OnErr, option_copied};
ghost use Rattle.std.specs.BTreeMap.{get, is_at as is_key};
ghost use Rattle.std.specs.List.{find, list_any};
ghost use Rattle.std.specs.Map.{remove_entry, values_of};
ghost use Rattle.std.specs.Ordering.{nat_cmp};
ghost use Rattle.usb_base.specs.Endpoint.{IsEndpoint};
ghost use Rattle.usb_base.specs.Firsts.{without_first};
ghost use Rattle.usb_base.specs.declared.endpoint.TheConstants.{ENDPOINTS};
ghost use Rattle.slab.specs.Slab.{get as at_key};
ghost use Rattle.redir_host.specs.device.Changes.{stays};
ghost use Rattle.redir_host.specs.state.Queues.{is_at, is_cancelled_by};
ghost use Rattle.redir_host.specs.inner.Waiting.{IsIndexed, numbered, is_from, is_key_of, marked_from, place_of};

use crate::device::change::is_touched;
use crate::state::keys::Keys;
use crate::state::request::Request;
use crate::state::requests::Requests;
use control_route::Route;
use slab::Slab;
use std::alloc::Global;
use std::array::from_fn;
use std::collections::BTreeMap;
use std::mem;
use usb_base::{ENDPOINTS, EpAddr, EpTable, Memory};

/// The place of endpoint 0's queue, which is one for both directions.
const CONTROL_QUEUE: usize = 0;

/// Requests in order of arrival, and where each queue's are.
#[derive(Drop)]
pub struct Waiting {
    pub requests: Slab<Request>,
    /// Their keys, under numbers that rise in order of arrival.
    pub order: BTreeMap<u64, usize>,
    /// Those of each queue, by the place of its endpoint in a table, so that they are found without a look at the rest.
    pub queues: [Keys; ENDPOINTS],
    /// Above all numbers.
    pub next: u64,
}

impl Waiting {
    /// No request.
    pub fn new(alloc: Global) -> Self
        ensures requests { numbered result ≡ [] }
        ensures none { result.order.entries ≡ [] }
        ensures next { result.next ≡ 0 }
        ensures indexed { IsIndexed result }
    {
        Waiting {
            requests: Slab::new(alloc),
            order: BTreeMap::new(alloc),
            queues: from_fn(|_| Keys::new(alloc)),
            next: 0,
        }
    }

    /// The requests, in order of arrival.
    pub fn iter(&self) -> Requests<'_>
        requires { IsIndexed self.now }
        ensures { result ≡ values_of (numbered self.now) }
    {
        Requests::new(&self.requests, &self.order)
    }

    /// An endpoint's first request.
    pub fn first(&self, ep: EpAddr) -> Option<&Request>
        requires { IsIndexed self.now }
        ensures { option_copied result ≡ find (is_at ep) (values_of (numbered self.now)) }
    {
        let (_, key) = self.queues[place_of(ep)].first()?;
        self.requests.get(key)
    }

    /// The number and the key of the first request that a cancel with this id is for.
    pub fn first_cancelled(&self, id: u64) -> Option<(u64, usize)>
        requires { IsIndexed self.now }
        ensures { result ≡ find (is_key_of (is_cancelled_by id) self.now.requests) self.now.order.entries }
    {
        for (number, key) in &self.order {
            if self.requests[*key].is_cancelled_by(id) {
                return Some((*number, *key));
            }
        }
        None
    }

    /// Puts a request behind those that are there. For want of memory none is put in, and some may be lost.
    pub fn push(&mut self, alloc: Global, request: Request) -> Result<(), Memory>
        requires { IsIndexed self.old }
        ensures ok { OnOk result (values_of (numbered self.new) ≡ values_of (numbered self.old) ++ request ∷ []) }
        ensures indexed { IsIndexed self.new }
    {
        if self.next == u64::MAX {
            self.number_anew(alloc)?;
        }
        self.put(request)
    }

    /// Numbers the requests anew from 0, in their order.
    fn number_anew(&mut self, alloc: Global) -> Result<(), Memory>
        requires { IsIndexed self.old }
        ensures ok { OnOk result (values_of (numbered self.new) ≡ values_of (numbered self.old)) }
        ensures room { OnOk result (self.new.next + 1 < 2 ^ 64) }
        ensures indexed { IsIndexed self.new }
    {
        let old = mem::replace(self, Waiting::new(alloc));
        let mut requests = old.requests;
        for (_, key) in old.order {
            self.put(requests.remove(key))?;
        }
        Ok(())
    }

    /// Puts a request in under the next number. For want of memory it is dropped.
    fn put(&mut self, request: Request) -> Result<(), Memory>
        requires indexed { IsIndexed self.old }
        requires room { self.old.next + 1 < 2 ^ 64 }
        ensures ok { OnOk result (numbered self.new ≡ numbered self.old ++ (self.old.next, request) ∷ []) }
        ensures next { OnOk result (self.new.next ≡ self.old.next + 1) }
        ensures err { OnErr result (numbered self.new ≡ numbered self.old) }
        ensures indexed { IsIndexed self.new }
    {
        self.requests.reserve(1)?;
        let (number, key) = (self.next, self.requests.vacant_key());
        self.order.insert(number, key)?;
        let place = request.place();
        if let Err(error) = self.queues[place].push(number, key) {
            self.order.remove(&number);
            return Err(error);
        }
        self.requests.insert_reserved(request);
        self.next += 1;
        Ok(())
    }

    /// Takes out an endpoint's first request.
    pub fn remove_first(&mut self, ep: EpAddr) -> Request
        requires indexed { IsIndexed self.old }
        requires there { IsSome (find (is_at ep) (values_of (numbered self.old))) }
        ensures request { find (is_at ep) (values_of (numbered self.old)) ≡ Some result }
        ensures rest { values_of (numbered self.new) ≡ without_first (is_at ep) (values_of (numbered self.old)) }
        ensures indexed { IsIndexed self.new }
    {
        let (number, key) = self.queues[place_of(ep)].pop().unwrap();
        self.order.remove(&number);
        self.requests.remove(key)
    }

    /// Takes out the request of a number and its key.
    pub fn remove(&mut self, number: u64, key: usize) -> Request
        requires indexed { IsIndexed self.old }
        requires there { get nat_cmp self.old.order number ≡ Some key }
        ensures request { at_key self.old.requests key ≡ Some result }
        ensures rest { numbered self.new ≡ remove_entry (is_key (nat_cmp number)) (numbered self.old) }
        ensures indexed { IsIndexed self.new }
    {
        let place = self.requests[key].place();
        self.queues[place].remove(number);
        self.order.remove(&number);
        self.requests.remove(key)
    }

    /// Marks the first of endpoint 0 from a number on, if there is one.
    pub fn mark_from(&mut self, number: u64) -> bool
        requires { IsIndexed self.old }
        ensures found { result ≡ list_any (is_from 0 number) (numbered self.old) }
        ensures marked { numbered self.new ≡ marked_from number (numbered self.old) }
        ensures indexed { IsIndexed self.new }
    {
        match self.queues[CONTROL_QUEUE].first_from(number) {
            Some((_, key)) => {
                self.requests[key].reset = true;
                true
            }
            None => false,
        }
    }

    /// Drops those that a change touches, by the table before it.
    pub fn flush(&mut self, route: &Route, table: &EpTable)
        requires { IsIndexed self.old }
        ensures rest { numbered self.new ≡ filter (λ e. stays route.now table.now e.1) (numbered self.old) }
        ensures indexed { IsIndexed self.new }
    {
        self.requests.retain(|_, request| !is_touched(route, table, request.transfer.ep));
        let requests = &self.requests;
        self.order.retain(|_, key| requests.contains(*key));
        retain_keys(&mut self.queues, requests);
    }
}

/// Takes out of each queue the keys under which nothing is any more.
fn retain_keys(queues: &mut [Keys; ENDPOINTS], requests: &Slab<Request>)
    ensures count { length queues.new ≡ ENDPOINTS }
    ensures each { (place : ℕ) → slice_index_or queues.new place [] ≡ filter (λ e. is_some (at_key requests.now e.1)) (slice_index_or queues.old place []) }
{
    for queue in queues {
        queue.retain(requests);
    }
}

/// The place of an endpoint's queue.
fn place_of(ep: EpAddr) -> usize
    ensures value { result ≡ place_of ep }
    ensures in_range { result < ENDPOINTS }
    ensures endpoint { IsEndpoint ep }
{
    if ep.is_control() {
        CONTROL_QUEUE
    } else {
        ep.index()
    }
}

impl Request {
    /// The place of its queue.
    fn place(&self) -> usize
        ensures value { result ≡ place_of self.now.transfer.ep }
        ensures in_range { result < ENDPOINTS }
        ensures endpoint { IsEndpoint self.now.transfer.ep }
    {
        place_of(self.transfer.ep)
    }
}
