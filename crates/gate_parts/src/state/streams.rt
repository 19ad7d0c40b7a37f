//! The streams of endpoints that are up.

ghost use Rattle.std.specs.Prelude.{◌≡◌, [], Some, None, length, option_copied, slice_set};
ghost use Rattle.usb_base.specs.Endpoint.{endpoint_index};
ghost use Rattle.usb_base.specs.declared.endpoint.TheConstants.{ENDPOINTS};
ghost use Rattle.gate_history.specs.state.Ups.{no_streams, stream_at, raise, lower, lower_at, unless, is_ended};

use control_route::{Route, touches};
use std::alloc::Global;
use std::array::from_fn;
use std::marker::Model;
use stream_buffers::Up;
use usb_base::{ENDPOINTS, EpAddr, EpRow};

/// The streams that are up, by their endpoints' places in a table; contracts see them as that list.
#[derive(Drop)]
pub struct Streams {
    ups: [Option<Up>; ENDPOINTS],
}

impl Model for Streams {
    ghost use Rattle.std.specs.Prelude.{◌≡◌, List, Option, length};
    ghost use Rattle.usb_base.specs.declared.endpoint.TheConstants.{ENDPOINTS};
    ghost use Rattle.gate_history.specs.state.Ups.{Up as UpView};

    ghost Value = { List (Option UpView) };

    ghost view = { λ streams. streams.ups };

    ghost invariant = { λ streams. length streams.ups ≡ ENDPOINTS };
}

impl Streams {
    /// None is up.
    pub fn none() -> Streams
        ensures { result ≡ no_streams }
    {
        Streams {
            ups: from_fn(|_| None),
        }
    }

    /// All places, of which those without a stream are empty.
    pub fn as_slice(&self) -> &[Option<Up>]
        ensures value { result.now ≡ self.now }
        ensures count { length result.now ≡ ENDPOINTS }
    {
        &self.ups
    }

    /// That of an endpoint.
    pub fn at(&self, ep: EpAddr) -> Option<&Up>
        ensures { option_copied result ≡ stream_at self.now ep }
    {
        self.ups[ep.index()].as_ref()
    }

    /// Takes out that of an endpoint.
    pub fn take(&mut self, ep: EpAddr) -> Option<Up>
        ensures up { result ≡ stream_at self.old ep }
        ensures rest { self.new ≡ slice_set self.old (endpoint_index ep) None }
    {
        self.ups[ep.index()].take()
    }

    /// Puts it back.
    pub fn put(&mut self, ep: EpAddr, up: Up)
        ensures { self.new ≡ slice_set self.old (endpoint_index ep) (Some up) }
    {
        self.ups[ep.index()] = Some(up);
    }

    /// That of an endpoint goes up, unless it is up already.
    pub fn raise(&mut self, alloc: Global, ep: EpAddr, row: EpRow)
        ensures { self.new ≡ raise (record { ep = ep; row = row; held = [] }) self.old }
    {
        if self.ups[ep.index()].is_none() {
            self.ups[ep.index()] = Some(Up::new(alloc, ep, row));
        }
    }

    /// Those that end with a route go down, or all where there is none.
    pub fn lower(&mut self, by: Option<Route>)
        ensures { self.new ≡ lower (is_ended by) self.old }
    {
        for up in &mut self.ups {
            lower_ended(up, by);
        }
    }

    /// All go down.
    pub fn clear(&mut self)
        ensures { self.new ≡ no_streams }
    {
        *self = Streams::none();
    }

    /// That of the endpoint with this address goes down. A byte that is no address is that of no endpoint.
    pub fn lower_at(&mut self, byte: u8)
        ensures { self.new ≡ lower_at byte self.old }
    {
        if let Some(ep) = EpAddr::new(byte) {
            self.ups[ep.index()] = None;
        }
    }
}

/// That of one endpoint goes down, where it is up and ends so.
fn lower_ended(stream: &mut Option<Up>, by: Option<Route>)
    ensures { stream.new ≡ unless (is_ended by) stream.old }
{
    if stream.as_ref().is_some_and(|up| is_ended(up, by)) {
        *stream = None;
    }
}

/// Whether a stream that is up ends with a route, or with its client where there is none.
pub fn is_ended(up: &Up, by: Option<Route>) -> bool
    ensures { result ≡ is_ended by up.now }
{
    match by {
        Some(route) => touches(&route, up.row().interface),
        None => true,
    }
}
