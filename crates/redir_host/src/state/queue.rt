//! The queue of requests.

ghost use Rattle.std.specs.Prelude.{◌≡◌, [], ◌∷◌, ◌++◌, filter, IsSome, Some, OnOk, option_copied};
ghost use Rattle.std.specs.List.{find};
ghost use Rattle.redir_host.specs.device.Changes.{stays};
ghost use Rattle.usb_base.specs.Firsts.{without_first};
ghost use Rattle.redir_host.specs.state.Queues.{is_at, is_cancelled_by, is_data};
ghost use Rattle.redir_host.specs.guest.Cancels.{Cancels};

use crate::state::request::{Form, Request};
use crate::state::requests::Requests;
use crate::state::waiting::Waiting;
use control_route::Route;
use std::alloc::Global;
use std::marker::Model;
use usb_base::{EpAddr, EpTable, Memory};

/// The requests in order of arrival, whatever their endpoint; contracts see it as their list.
#[derive(Drop)]
pub struct Queue {
    alloc: Global,
    waiting: Waiting,
}

impl Model for Queue {
    ghost use Rattle.std.specs.Prelude.{List};
    ghost use Rattle.std.specs.Map.{values_of};
    ghost use Rattle.redir_host.specs.declared.state.request.Request.{Request};
    ghost use Rattle.redir_host.specs.inner.Waiting.{IsIndexed, numbered};

    ghost Value = { List Request };

    ghost view = { λ queue. values_of (numbered queue.waiting) };

    ghost invariant = { λ queue. IsIndexed queue.waiting };
}

/// A request that a cancel took.
#[derive(Drop)]
pub struct Cancelled {
    pub request: Request,
    /// Its mark goes to the next request that comes, since none is behind it.
    pub leaves_mark: bool,
}

impl Queue {
    /// No request.
    pub fn new(alloc: Global) -> Self
        ensures { result ≡ [] }
    {
        Queue {
            alloc,
            waiting: Waiting::new(alloc),
        }
    }

    /// The requests, in order of arrival.
    pub fn iter(&self) -> Requests<'_>
        ensures { result ≡ self.now }
    {
        self.waiting.iter()
    }

    /// Puts a request behind those that are there.
    pub fn push(&mut self, request: Request) -> Result<(), Memory>
        ensures { OnOk result (self.new ≡ self.old ++ request ∷ []) }
    {
        self.waiting.push(self.alloc, request)
    }

    /// An endpoint's first request.
    pub fn first(&self, ep: EpAddr) -> Option<&Request>
        ensures { option_copied result ≡ find (is_at ep) self.now }
    {
        self.waiting.first(ep)
    }

    /// Takes an endpoint's first request out.
    pub fn remove_first(&mut self, ep: EpAddr) -> Request
        requires { IsSome (find (is_at ep) self.old) }
        ensures request { find (is_at ep) self.old ≡ Some result }
        ensures rest { self.new ≡ without_first (is_at ep) self.old }
    {
        self.waiting.remove_first(ep)
    }

    /// Takes out the first that a cancel with this id is for. Its mark goes to the request behind it in its queue.
    pub fn cancel(&mut self, id: u64) -> Option<Cancelled>
        ensures { Cancels result id self.old self.new }
    {
        let (number, key) = self.waiting.first_cancelled(id)?;
        let request = self.waiting.remove(number, key);
        let leaves_mark = request.reset && !self.waiting.mark_from(number);
        Some(Cancelled {
            request,
            leaves_mark,
        })
    }

    /// Drops those that a change touches, by the table before it.
    pub fn flush(&mut self, route: &Route, table: &EpTable)
        ensures { self.new ≡ filter (stays route.now table.now) self.old }
    {
        self.waiting.flush(route, table);
    }

    /// Drops all.
    pub fn clear(&mut self)
        ensures { self.new ≡ [] }
    {
        self.waiting = Waiting::new(self.alloc);
    }
}

impl Request {
    /// Whether a cancel with this id is for it: only requests that came by packets that move data are cancelled.
    pub fn is_cancelled_by(&self, id: u64) -> bool
        ensures { result ≡ is_cancelled_by id self.now }
    {
        is_data(self.form) && self.id == id
    }
}

fn is_data(form: Form) -> bool
    ensures { result ≡ is_data form }
{
    matches!(form, Form::Control(_) | Form::Bulk { .. } | Form::Interrupt)
}
