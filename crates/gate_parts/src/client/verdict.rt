//! What is made of a submit: the first rule that applies.

ghost use Rattle.std.specs.Prelude.{◌≡◌, ◌⊎◌, ◌<◌, true, IsTrue};
ghost use Rattle.usbip_urb.specs.Buffers.{laid};
ghost use Rattle.gate_history.specs.client.Verdict.{verdict, goes_by_id, by_setup, by_endpoint, by_route, by_kind, is_narrow};
ghost use Rattle.gate_history.specs.client.Ends.{is_waiting};
ghost use Rattle.gate_parts.specs.state.Rows.{kind_of, IsRead};
ghost use Rattle.gate_history.specs.client.Carried.{IsRequest, IsCarried};

use control_route::{Route, route_of};
use gate_history::{MAX_NARROW, Pipe, Request, Situation, Verdict};
use usb_base::errno::{EBUSY, EINVAL, EMSGSIZE, ENOENT, ESHUTDOWN};
use usb_base::{EpKind, EpRow, Setup};
use usbip_urb::{MAX_LIVE, laid};

/// The first rule that applies to a submit that comes `here`. Answers by the errors of Linux: ESHUTDOWN, EBUSY, ENOENT,
/// EINVAL and EMSGSIZE.
pub fn decide(here: Situation, request: &Request) -> Verdict
    ensures value { result ≡ verdict here request.now }
    ensures carried { IsRequest request.now → IsCarried here.wide result request.now }
    ensures reads { IsRequest request.now → goes_by_id result ≡ true
        → (request.now.transfer.wanted ≡ 0) ⊎ IsRead request.now.is_in (kind_of result request.now.transfer.ep) }
    ensures room { goes_by_id result ≡ true → here.live < MAX_LIVE }
    ensures waits { is_waiting result ≡ true → here.live < MAX_LIVE }
    ensures lies { is_waiting result ≡ true → IsTrue (laid request.now.descs request.now.transfer.wanted) }
{
    if here.lost {
        return Verdict::Now(ESHUTDOWN);
    }
    if here.live >= MAX_LIVE {
        return Verdict::Now(EBUSY);
    }
    match &request.transfer.setup {
        Some(setup) => by_setup(request, setup),
        None if here.changing => Verdict::Now(ENOENT),
        None => by_endpoint(here, request),
    }
}

/// A transfer of endpoint 0, whose setup tells its direction and its length once more.
fn by_setup(request: &Request, setup: &Setup) -> Verdict
    ensures { result ≡ by_setup request.now setup.now }
{
    if !request.descs.is_empty() {
        return Verdict::Now(EINVAL);
    }
    if setup.length != 0 && setup.is_in() != request.is_in {
        return Verdict::Now(EINVAL);
    }
    if u32::from(setup.length) != request.transfer.wanted {
        return Verdict::Now(EINVAL);
    }
    by_route(route_of(setup))
}

/// A transfer of endpoint 0 that is well asked for, by its route.
fn by_route(route: Route) -> Verdict
    ensures { result ≡ by_route route }
{
    match route {
        Route::Local => Verdict::Now(0),
        Route::Plain => Verdict::Wire(Pipe::Control),
        Route::Bad => Verdict::Now(EINVAL),
        _ => Verdict::Routed(route),
    }
}

/// A transfer of another endpoint, by what was told of it.
fn by_endpoint(here: Situation, request: &Request) -> Verdict
    ensures { result ≡ by_endpoint here request.now }
{
    let row = here.row;
    if row.kind == EpKind::Invalid {
        return Verdict::Now(ENOENT);
    }
    if row.kind == EpKind::Control {
        return Verdict::Now(EINVAL);
    }
    if (row.kind == EpKind::Iso) == request.descs.is_empty() {
        return Verdict::Now(EINVAL);
    }
    if !laid(&request.descs, request.transfer.wanted) {
        return Verdict::Now(EINVAL);
    }
    if is_narrow(here, request) && request.transfer.wanted > MAX_NARROW {
        return Verdict::Now(EMSGSIZE);
    }
    by_kind(request, row)
}

/// Whether the packet of such a transfer has 16 bits for its length.
fn is_narrow(here: Situation, request: &Request) -> bool
    ensures { result ≡ is_narrow here request.now here.row.kind }
{
    match here.row.kind {
        EpKind::Bulk => !here.wide,
        EpKind::Interrupt => !request.is_in,
        EpKind::Control | EpKind::Iso | EpKind::Invalid => false,
    }
}

/// A transfer of an endpoint that can carry it, by what its endpoint's transfers are.
fn by_kind(request: &Request, row: EpRow) -> Verdict
    ensures { result ≡ by_kind request.now row row.kind }
{
    match row.kind {
        EpKind::Bulk => Verdict::Wire(Pipe::Bulk),
        EpKind::Iso if !request.is_in => Verdict::IsoOut(row),
        EpKind::Interrupt if !request.is_in => Verdict::Wire(Pipe::InterruptOut),
        EpKind::Iso | EpKind::Interrupt => Verdict::Stream(row),
        EpKind::Control => Verdict::Now(EINVAL),
        EpKind::Invalid => Verdict::Now(ENOENT),
    }
}
