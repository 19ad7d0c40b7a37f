//! How each side's packets are shown.

ghost use Rattle.std.specs.Prelude.{◌≡◌, ◌++◌, ◌∷◌, [], ℕ, List, OnOk, refl};
ghost use Rattle.usb_base.specs.declared.side.Side.{Side as ASide};
ghost use Rattle.usb_base.specs.declared.side.Side.TheVariants as side;
ghost use Rattle.packet_stream.specs.Split.{reads};
ghost use Rattle.gate_history.specs.step.Events.{PastEvent, event_of, client_bytes, host_bytes};
ghost use Rattle.tape_run.specs.Show.{asked_line, told_line};
ghost use Rattle.tape_run.specs.inner.show.Shown.{HasNone, clients_none, host_none};
ghost use Rattle.tape_run.specs.inner.show.Part.{IsPart};
ghost use Rattle.redir_wire.specs.State.{start};

use gate_history::Event;
use packet_show::{show_client, show_redir, show_submit, show_unlink};
use packet_stream::PacketFormat;
use redir_data::{FromHost, RedirPacket};
use redir_wire::{Header, RedirState};
use std::alloc::Global;
use usb_base::{Bytes, Memory, Side};
use usbip_urb::{ClientFormat, ClientPacket, UrbCommand};

/// What an event is to a side's stream.
#[derive(Clone, Copy)]
pub enum Part<'a> {
    /// Its next piece.
    Piece(&'a [u8]),
    /// Its end: the side's next stream begins.
    End,
    /// Nothing.
    Other,
}

/// A side's packets, as they are shown.
pub trait ShownFormat: PacketFormat {
    ghost the_side: { ASide };

    ghost first_state: { Self.State };

    ghost bytes: { List PastEvent → List ℕ };

    ghost line: { ℕ → Self.Packet → List ℕ };

    /// Whose packets they are.
    fn side() -> Side
        ensures { result ≡ the_side };

    /// How the first packet of a stream is read.
    fn first_state() -> Self::State
        ensures { result ≡ first_state };

    /// What an event is to the side's stream.
    fn part(event: Event<'_>) -> Part<'_>
        ensures { (events : List PastEvent) → IsPart result (bytes events) (bytes (event_of event.entry ∷ events)) };

    /// Appends the line of a packet at this place.
    fn show(
        alloc: Global,
        place: u64,
        packet: &Self::Packet,
        text: &mut Bytes,
    ) -> Result<(), Memory>
        ensures { OnOk result (text.new ≡ text.old ++ line place packet.now) };

    ghost no_bytes: { bytes [] ≡ [] };

    ghost none: { HasNone (reads Self.format Self.after) (record { state = first_state; place = 0 }) };
}

impl ShownFormat for ClientFormat {
    ghost the_side = { side.Client };

    ghost first_state = { tt };

    ghost bytes = { client_bytes };

    ghost line = { asked_line };

    ghost no_bytes = { refl };

    ghost none = { clients_none };

    fn side() -> Side {
        Side::Client
    }

    fn first_state() -> () {}

    fn part(event: Event<'_>) -> Part<'_> {
        match event {
            Event::ClientPiece(piece) => Part::Piece(piece),
            Event::ClientEnd => Part::End,
            Event::HostPiece(_) | Event::HostEnd => Part::Other,
        }
    }

    fn show(
        alloc: Global,
        place: u64,
        packet: &ClientPacket,
        text: &mut Bytes,
    ) -> Result<(), Memory> {
        match packet {
            ClientPacket::Op(request) => show_client(alloc, place, request, text),
            ClientPacket::Urb(request) => match request.command() {
                UrbCommand::Submit(submit) => show_submit(alloc, place, submit, text),
                UrbCommand::Unlink(unlink) => show_unlink(alloc, place, unlink, text),
            },
        }
    }
}

impl ShownFormat for FromHost {
    ghost the_side = { side.Host };

    ghost first_state = { start };

    ghost bytes = { host_bytes };

    ghost line = { told_line };

    ghost no_bytes = { refl };

    ghost none = { host_none };

    fn side() -> Side {
        Side::Host
    }

    fn first_state() -> RedirState {
        RedirState::start()
    }

    fn part(event: Event<'_>) -> Part<'_> {
        match event {
            Event::HostPiece(piece) => Part::Piece(piece),
            Event::ClientPiece(_) | Event::ClientEnd | Event::HostEnd => Part::Other,
        }
    }

    fn show(
        alloc: Global,
        place: u64,
        packet: &(Header, RedirPacket),
        text: &mut Bytes,
    ) -> Result<(), Memory> {
        show_redir(alloc, place, &packet.0, &packet.1, text)
    }
}
