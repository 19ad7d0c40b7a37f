//! Takes what the guest sends.

ghost use Rattle.std.specs.Prelude.{◌≡◌, ◌++◌, Some, None, if◌then◌else◌, OnOk, OnErr};
ghost use Rattle.std.specs.List.{find, AllByRecursion};
ghost use Rattle.redir_data.specs.declared.packet.RedirPacket.TheVariants.{Plain};
ghost use Rattle.usb_base.specs.Endpoint.{is_control};
ghost use Rattle.usb_base.specs.Writes.{Begins};
ghost use Rattle.redir_wire.specs.State.{wide_ids};
ghost use Rattle.redir_wire.specs.Header.{IdFits};
ghost use Rattle.redir_host.specs.guest.Asking.{asking_of};
ghost use Rattle.redir_host.specs.step.Machine.{bytes_of};
ghost use Rattle.redir_host.specs.step.Makes.{IdFitsOf, IsTaken, Makes, TakesMove};
ghost use Rattle.redir_host.specs.guest.Packets.{can_start, cancel_move, data_move, greets, packet_move, packet_move_by, queued, start_move, status_of, stop_move};
ghost use Rattle.redir_host.specs.state.Queues.{is_cancelled_by};
ghost use Rattle.redir_host.specs.write.Readable.{GreetsInRange, InRange, TakesInRange};
ghost use Rattle.redir_host.specs.state.Sound.{IsSound};
ghost use Rattle.redir_host.specs.step.Wants.{GivesSome};

use crate::device::facts::write_connect;
use crate::guest::asking::asking_of;
use crate::guest::routed::{get_alt, get_configuration, set_alt, set_configuration};
use crate::state::host::Host;
use crate::state::request::{Asking, Form, Request};
use crate::write::answer::{write_cancelled, write_refused};
use crate::write::note::{HostNote, HostNotes};
use crate::write::packet::write;
use model_device::Gadget;
use redir_data::{RedirData, RedirPacket, StreamKind, advance};
use redir_wire::{Header, RedirControl};
use std::alloc::Global;
use usb_base::{Bytes, EpAddr, EpTable, Memory, Transfer, UsbStatus};

impl<G: Gadget> Host<G> {
    /// Takes a packet of the guest. An unplugged host reads on, but does nothing. For want of memory `out` stands.
    pub fn take(
        &mut self,
        alloc: Global,
        header: Header,
        packet: RedirPacket,
        out: &mut Bytes,
        notes: &mut HostNotes,
    ) -> Result<(), Memory>
        requires sound { IsSound self.old }
        requires taken { IsTaken self.old.guest header packet }
        ensures ok { OnOk result (TakesMove (packet_move G.meaning self.old header.id packet) self.new out.old out.new notes.old notes.new) }
        ensures wants { OnErr result (GivesSome self.old (packet_move G.meaning self.old header.id packet)) }
        ensures ranges { OnOk result (TakesInRange G.meaning self.old packet) }
        ensures err { OnErr result (out.new ≡ out.old) }
    {
        advance(&mut self.guest, &packet);
        if self.unplugged {
            return Ok(());
        }
        let before = out.len();
        let taken = match packet {
            RedirPacket::Plain(control) => self.take_plain(alloc, header.id, control, out, notes),
            RedirPacket::Carrying(data) => self.take_data(alloc, header.id, data, out),
        };
        out.cut_on_err(before, taken)
    }

    #[tactic(auto, using(crate::proofs::lemmas::write::Begun::begins_itself))]
    fn take_plain(
        &mut self,
        alloc: Global,
        id: u64,
        packet: RedirControl,
        out: &mut Bytes,
        notes: &mut HostNotes,
    ) -> Result<(), Memory>
        requires { IdFitsOf self.old.guest.caps id packet }
        ensures ok { OnOk result (TakesMove (packet_move_by G.meaning self.old id (Plain packet)) self.new out.old out.new notes.old notes.new) }
        ensures wants { OnErr result (GivesSome self.old (packet_move_by G.meaning self.old id (Plain packet))) }
        ensures ranges { OnOk result (GreetsInRange G.meaning self.old packet) }
        ensures err { OnErr result (Begins out.old out.new) }
    {
        match packet {
            RedirControl::Hello(_) => self.greet(alloc, out),
            RedirControl::Reset => {
                self.resets_next = true;
                Ok(())
            }
            RedirControl::SetConfiguration { configuration } => {
                let transfer = set_configuration(alloc, configuration);
                self.join(id, Form::SetConfiguration { configuration }, transfer)
            }
            RedirControl::GetConfiguration => {
                self.join(id, Form::GetConfiguration, get_configuration(alloc))
            }
            RedirControl::SetAlt { interface, alt } => {
                let transfer = set_alt(alloc, interface, alt);
                self.join(id, Form::SetAlt { interface, alt }, transfer)
            }
            RedirControl::GetAlt { interface } => {
                self.join(id, Form::GetAlt { interface }, get_alt(alloc, interface))
            }
            RedirControl::StartIso { endpoint, .. } => {
                self.start(id, StreamKind::Iso, endpoint, out)
            }
            RedirControl::StopIso { endpoint } => self.stop(id, StreamKind::Iso, endpoint, out),
            RedirControl::StartInterrupt { endpoint } => {
                self.start(id, StreamKind::Interrupt, endpoint, out)
            }
            RedirControl::StopInterrupt { endpoint } => {
                self.stop(id, StreamKind::Interrupt, endpoint, out)
            }
            RedirControl::Cancel => self.cancel(alloc, id, out, notes),
            RedirControl::DisconnectAck
            | RedirControl::Connect(_)
            | RedirControl::Disconnect
            | RedirControl::InterfaceInfo(_)
            | RedirControl::EpInfo(_)
            | RedirControl::ConfigurationStatus { .. }
            | RedirControl::AltStatus { .. }
            | RedirControl::IsoStatus { .. }
            | RedirControl::InterruptStatus { .. } => Ok(()),
        }
    }

    /// Tells the guest of the device.
    fn greet(&self, alloc: Global, out: &mut Bytes) -> Result<(), Memory>
        ensures ok { OnOk result (out.new ≡ out.old ++ bytes_of (greets G.meaning self.now)) }
        ensures ranges { OnOk result (AllByRecursion InRange (greets G.meaning self.now).sent) }
        ensures err { OnErr result (Begins out.old out.new) }
    {
        self.tell_facts(alloc, out)?;
        write_connect(self.gadget.identity(), self.guest.caps, out)?;
        Ok(())
    }

    /// Starts a stream, where the endpoint can have it.
    fn start(&mut self, id: u64, kind: StreamKind, ep: u8, out: &mut Bytes) -> Result<(), Memory>
        requires { IdFits (wide_ids self.old.guest.caps) id }
        ensures ok { OnOk result (Makes (start_move (can_start (G.meaning.table self.old.gadget) kind ep) self.old id kind ep) self.new out.old out.new) }
        ensures wants { OnErr result (GivesSome self.old (start_move (can_start (G.meaning.table self.old.gadget) kind ep) self.old id kind ep)) }
        ensures err { OnErr result (Begins out.old out.new) }
    {
        let status = match stream_endpoint(&self.gadget.table(), kind, ep) {
            Some(source) => {
                self.running.start(kind, source)?;
                UsbStatus::Success
            }
            None => UsbStatus::Inval,
        };
        write(&status_of(kind, status, ep), id, self.guest.caps, out)
    }
}

impl<G> Host<G> {
    /// Takes a packet that moves data.
    #[tactic(auto, using(crate::proofs::lemmas::write::Begun::begins_itself))]
    fn take_data(
        &mut self,
        alloc: Global,
        id: u64,
        packet: RedirData,
        out: &mut Bytes,
    ) -> Result<(), Memory>
        requires { IdFits (wide_ids self.old.guest.caps) id }
        ensures ok { OnOk result (Makes (data_move self.old id (asking_of packet)) self.new out.old out.new) }
        ensures wants { OnErr result (GivesSome self.old (data_move self.old id (asking_of packet))) }
        ensures err { OnErr result (Begins out.old out.new) }
    {
        match asking_of(packet) {
            Asking::Nothing => Ok(()),
            Asking::Refuses { form, endpoint } => {
                write_refused(alloc, id, form, endpoint, self.guest.caps, out)
            }
            Asking::Asks { form, transfer } => self.join(id, form, transfer),
        }
    }

    /// Puts a request into its queue. A reset that came before marks the next one of endpoint 0.
    fn join(&mut self, id: u64, form: Form, transfer: Transfer) -> Result<(), Memory>
        ensures { OnOk result (self.new ≡ queued self.old (is_control transfer.ep) id form transfer) }
    {
        let first = transfer.ep.is_control();
        let reset = first && self.resets_next;
        self.queue.push(Request {
            id,
            form,
            transfer,
            reset,
        })?;
        self.resets_next = !first && self.resets_next;
        Ok(())
    }

    /// Stops a stream, of whatever type.
    fn stop(&mut self, id: u64, kind: StreamKind, ep: u8, out: &mut Bytes) -> Result<(), Memory>
        requires { IdFits (wide_ids self.old.guest.caps) id }
        ensures ok { OnOk result (Makes (stop_move self.old id kind ep) self.new out.old out.new) }
        ensures err { OnErr result (Begins out.old out.new) }
    {
        self.running.stop(ep);
        let status = status_of(kind, UsbStatus::Success, ep);
        write(&status, id, self.guest.caps, out)
    }

    /// Takes the first request that moves data and has this id out of its queue, and answers it.
    fn cancel(
        &mut self,
        alloc: Global,
        id: u64,
        out: &mut Bytes,
        notes: &mut HostNotes,
    ) -> Result<(), Memory>
        requires { IdFits (wide_ids self.old.guest.caps) id }
        ensures ok { OnOk result (TakesMove (cancel_move self.old id (find (is_cancelled_by id) self.old.queue)) self.new out.old out.new notes.old notes.new) }
        ensures wants { OnErr result (GivesSome self.old (cancel_move self.old id (find (is_cancelled_by id) self.old.queue))) }
        ensures err { OnErr result (Begins out.old out.new) }
    {
        match self.queue.cancel(id) {
            Some(cancelled) => {
                self.resets_next = cancelled.leaves_mark || self.resets_next;
                notes.push(HostNote::Cancelled { id })?;
                write_cancelled(alloc, &cancelled.request, self.guest.caps, out)
            }
            None => Ok(()),
        }
    }
}

/// The endpoint of a stream of this kind, where the device has it.
fn stream_endpoint(table: &EpTable, kind: StreamKind, endpoint: u8) -> Option<EpAddr>
    ensures { result ≡ (if can_start table.now kind endpoint then Some endpoint else None) }
{
    match EpAddr::new(endpoint) {
        Some(ep) if ep.is_in() && kind.is_kind_of(table.row(ep).kind) => Some(ep),
        _ => None,
    }
}

/// How a stream's start or stop went.
fn status_of(kind: StreamKind, status: UsbStatus, endpoint: u8) -> RedirPacket
    ensures { result ≡ status_of kind status endpoint }
{
    let status = status.to_byte();
    RedirPacket::Plain(match kind {
        StreamKind::Iso => RedirControl::IsoStatus { status, endpoint },
        StreamKind::Interrupt => RedirControl::InterruptStatus { status, endpoint },
    })
}
