//! Performs requests: changes with what they flush, resets, and answers.

ghost use Rattle.std.specs.Prelude.{◌≡◌, ◌++◌, true, Some, IfOk, IsSome, IsSomeAnd, OnOk, OnErr};
ghost use Rattle.std.specs.List.{find, flat_map, AllByRecursion};
ghost use Rattle.control_route.specs.declared.route.Route.TheVariants as route;
ghost use Rattle.usb_base.specs.Status.{is_success as is_success_status};
ghost use Rattle.model_device.specs.Transfer.{IsOutcome};
ghost use Rattle.usb_base.specs.Writes.{Begins};
ghost use Rattle.redir_host.specs.declared.state.request.Request.{Request as Asked};
ghost use Rattle.redir_host.specs.write.Answers.{answer};
ghost use Rattle.redir_host.specs.device.Changes.{changed_by, cleared};
ghost use Rattle.redir_host.specs.device.Facts.{facts_of};
ghost use Rattle.redir_data.specs.Sent.{sent_packet_bytes};
ghost use Rattle.redir_host.specs.step.Makes.{Makes, TellsPerformed, Tells};
ghost use Rattle.redir_host.specs.device.Performing.{done_by, performed, performs, performs_marked, perform_move, told_performed, with_id};
ghost use Rattle.redir_host.specs.device.Resets.{PerformsNow, ResetsTo};
ghost use Rattle.redir_host.specs.write.Readable.{InRange};
ghost use Rattle.usb_base.specs.Firsts.{without_first};
ghost use Rattle.redir_host.specs.state.Queues.{is_at};
ghost use Rattle.redir_host.specs.state.Sound.{IsGuestRequest, IsSound};

use crate::device::change::change_of;
use crate::device::facts::write_facts;
use crate::guest::routed::reset;
use crate::state::host::Host;
use crate::state::request::{Form, Request};
use crate::write::answer::{write_answer, write_flushed};
use crate::write::note::Performed;
use control_route::Route;
use model_device::Gadget;
use std::alloc::Global;
use usb_base::{Bytes, EpAddr, EpTable, Memory, Outcome, UsbStatus};

impl<G: Gadget> Host<G> {
    /// Performs the first request of an endpoint, where the device is ready for it, and answers it. For want of
    /// memory what was there of `out` still stands at its front.
    pub fn perform(
        &mut self,
        alloc: Global,
        ep: EpAddr,
        out: &mut Bytes,
    ) -> Result<Performed, Memory>
        requires { IsSound self.old }
        ensures told { IfOk result (λ told. told ≡ told_performed G.meaning self.old ep) }
        ensures makes { OnOk result (Tells (perform_move G.meaning self.old ep) self.new out.old out.new) }
        ensures wants { OnErr result (IsSome (performed G.meaning self.old ep)) }
        ensures err { OnErr result (Begins out.old out.new) }
    {
        if self.unplugged {
            return Ok(Performed::Unplugged);
        }
        let Some(request) = self.queue.first(ep) else {
            return Ok(Performed::NotReady);
        };
        if request.reset {
            return self.perform_marked(alloc, ep, out);
        }
        let table = self.gadget.table();
        match self.gadget.perform(alloc, &request.transfer)? {
            Some(outcome) => {
                let request = self.queue.remove_first(ep);
                let id = request.id;
                let change = change_of(request.form);
                self.finish(alloc, &request, change, &table, outcome, out)?;
                Ok(Performed::Done { id })
            }
            None => Ok(Performed::NotReady),
        }
    }

    /// Resets the device, and performs an endpoint's first request.
    fn perform_marked(
        &mut self,
        alloc: Global,
        ep: EpAddr,
        out: &mut Bytes,
    ) -> Result<Performed, Memory>
        requires sound { IsSound self.old }
        requires marked { IsSomeAnd (find (is_at ep) self.old.queue) (λ q. q.reset ≡ true) }
        ensures ok { IfOk result (λ told. (q : Asked) → find (is_at ep) self.old.queue ≡ Some q
            → TellsPerformed (with_id q (performs_marked G.meaning (record self.old { queue = without_first (is_at ep) self.old.queue }) q q.form)) self.old self.new told out.old out.new) }
        ensures err { OnErr result (Begins out.old out.new) }
    {
        let request = self.queue.remove_first(ep);
        let id = request.id;
        self.perform_after_reset(alloc, &request, out)?;
        Ok(Performed::Done { id })
    }

    /// Resets the device for a request of endpoint 0, and performs it. A get_configuration asks no more than the reset.
    fn perform_after_reset(
        &mut self,
        alloc: Global,
        request: &Request,
        out: &mut Bytes,
    ) -> Result<(), Memory>
        requires sound { IsSound self.old }
        requires request { IsGuestRequest self.old.guest request.now }
        requires marked { request.now.reset ≡ true }
        ensures ok { OnOk result (PerformsNow (performs_marked G.meaning self.old request.now request.now.form) self.new out.old out.new) }
        ensures err { OnErr result (Begins out.old out.new) }
    {
        let table = self.gadget.table();
        let outcome = self.reset(alloc)?;
        match request.form {
            Form::GetConfiguration => {
                self.finish(alloc, request, Some(Route::Reset), &table, outcome, out)
            }
            Form::Control(_)
            | Form::Bulk { .. }
            | Form::Interrupt
            | Form::SetConfiguration { .. }
            | Form::SetAlt { .. }
            | Form::GetAlt { .. } => {
                self.change(alloc, Some(Route::Reset), &table, outcome.status, out)?;
                self.carry_out(alloc, request, out)
            }
        }
    }

    /// Resets the device.
    fn reset(&mut self, alloc: Global) -> Result<Outcome, Memory>
        ensures { IfOk result (λ outcome. ResetsTo G.meaning self.old self.new outcome) }
    {
        match self.gadget.perform(alloc, &reset(alloc))? {
            Some(outcome) => Ok(outcome),
            None => unreachable!(),
        }
    }

    /// Carries out a request of endpoint 0, for which the device is always ready.
    fn carry_out(&mut self, alloc: Global, request: &Request, out: &mut Bytes) -> Result<(), Memory>
        requires sound { IsSound self.old }
        requires request { IsGuestRequest self.old.guest request.now }
        requires marked { request.now.reset ≡ true }
        ensures ok { OnOk result (PerformsNow (performs G.meaning self.old request.now) self.new out.old out.new) }
        ensures err { OnErr result (Begins out.old out.new) }
    {
        let table = self.gadget.table();
        let change = change_of(request.form);
        match self.gadget.perform(alloc, &request.transfer)? {
            Some(outcome) => self.finish(alloc, request, change, &table, outcome, out),
            None => unreachable!(),
        }
    }

    /// Does what a change does, and answers a request. The table is that of before.
    fn finish(
        &mut self,
        alloc: Global,
        request: &Request,
        change: Option<Route>,
        table: &EpTable,
        outcome: Outcome,
        out: &mut Bytes,
    ) -> Result<(), Memory>
        requires sound { IsSound self.old }
        requires request { IsGuestRequest self.old.guest request.now }
        requires outcome { IsOutcome request.now.transfer outcome }
        ensures ok { OnOk result (Tells (done_by G.meaning table.now self.old request.now change outcome) self.new out.old out.new) }
        ensures err { OnErr result (Begins out.old out.new) }
    {
        self.change(alloc, change, table, outcome.status, out)?;
        self.answer(request, outcome, out)
    }

    /// Answers a request.
    fn answer(&self, request: &Request, outcome: Outcome, out: &mut Bytes) -> Result<(), Memory>
        requires request { IsGuestRequest self.now.guest request.now }
        requires outcome { IsOutcome request.now.transfer outcome }
        ensures ok { OnOk result (out.new ≡ out.old ++ sent_packet_bytes self.now.guest.caps (answer (G.meaning.configuration self.now.gadget) request.now outcome)) }
        ensures err { OnErr result (out.new ≡ out.old) }
    {
        let configuration = self.gadget.configuration();
        write_answer(configuration, request, outcome, self.guest.caps, out)
    }

    /// Does what a change does that came to this status: nothing where there is none. The table is that of before.
    fn change(
        &mut self,
        alloc: Global,
        change: Option<Route>,
        table: &EpTable,
        status: UsbStatus,
        out: &mut Bytes,
    ) -> Result<(), Memory>
        requires { IsSound self.old }
        ensures ok { OnOk result (Tells (changed_by G.meaning change table.now (is_success_status status) self.old) self.new out.old out.new) }
        ensures err { OnErr result (Begins out.old out.new) }
    {
        match change {
            Some(route) => {
                self.clear(alloc, &route, table, status, out)?;
                self.tell_facts(alloc, out)
            }
            None => Ok(()),
        }
    }

    /// Tells the endpoints and the interfaces as they are now.
    pub fn tell_facts(&self, alloc: Global, out: &mut Bytes) -> Result<(), Memory>
        ensures ok { OnOk result (out.new ≡ out.old ++ flat_map (sent_packet_bytes self.now.guest.caps) (facts_of self.now.guest.caps G.meaning self.now.gadget)) }
        ensures ranges { OnOk result (AllByRecursion InRange (facts_of self.now.guest.caps G.meaning self.now.gadget)) }
        ensures err { OnErr result (Begins out.old out.new) }
    {
        write_facts(
            alloc,
            &self.gadget.table(),
            self.gadget.interfaces(),
            self.guest.caps,
            out,
        )
    }
}

impl<G> Host<G> {
    /// With success, answers the requests that a change touches as cancelled, and ends the streams that it touches.
    fn clear(
        &mut self,
        alloc: Global,
        route: &Route,
        table: &EpTable,
        status: UsbStatus,
        out: &mut Bytes,
    ) -> Result<(), Memory>
        requires { IsSound self.old }
        ensures ok { OnOk result (Makes (cleared (is_success_status status) route.now table.now self.old) self.new out.old out.new) }
        ensures err { OnErr result (Begins out.old out.new) }
    {
        if !status.is_success() {
            return Ok(());
        }
        write_flushed(alloc, &self.queue, route, table, self.guest.caps, out)?;
        self.queue.flush(route, table);
        self.running.flush(route, table);
        Ok(())
    }
}
