//! All that a client sends: list and import requests, and URB requests, told apart by their first two bytes.

ghost use Rattle.std.specs.Prelude.{◌≡◌, ◌++◌, ℕ, List, true, length};
ghost use Rattle.packet_stream.specs.Format.{IsSound, StandsAtFront, reading, Whole as FoundWhole};
ghost use Rattle.packet_stream.specs.Reads.{Answers, IfTold, bytes_left};
ghost use Rattle.usbip_urb.specs.declared.client.ClientPacket.{ClientPacket as Packet};
ghost use Rattle.usbip_urb.specs.ClientPackets.{is_op, client_packets, client_spelling, IsClientPacket, takes_memory};
ghost use Rattle.usbip_urb.specs.Sound.ClientPackets.{client_packets_sound};

use crate::command::UrbRequest;
use crate::next::next_client;
use crate::request::take_urb;
use packet_stream::{PacketFormat, Read, ReadError};
use std::alloc::Global;
use usb_base::{PacketBytes, ReceiveBuffer, be_u16_at};
use usbip_op::{OpRequest, USBIP_VERSION, read_request};

/// What a client sends.
#[derive(Drop)]
pub enum ClientPacket {
    /// A list or an import request.
    Op(OpRequest),
    /// A URB request.
    Urb(UrbRequest),
}

/// A law: what is read as a client's packet is spelled so, and what is spelled so is read.
pub fn client_packets_sound()
    ensures { IsSound client_packets }
{}

/// A law: the bytes of a client's packet are read as that packet again, whatever comes after them.
pub fn read_client_again()
    ensures { (p : Packet) (more : List ℕ) → IsClientPacket p → reading client_packets (client_spelling p ++ more) ≡ FoundWhole p (length (client_spelling p)) }
{}

/// Reads the packet at the front of a client's bytes: where the first two are the version it is a list or import
/// request, as `read_request` of `usbip_op` reads it, and else a URB request, as `read_urb` does. So it is refused as
/// `Version` at place 0 where they are neither 01 11 nor 00 00. Memory is wanting only for a body or descriptors.
pub fn read_client(alloc: Global, bytes: &[u8]) -> Result<Read<ClientPacket>, ReadError>
    ensures stands { IfTold result (StandsAtFront client_packets bytes.now) }
    ensures exact { Answers takes_memory result (reading client_packets bytes.now) }
{
    let mut bytes = bytes;
    take_packet(alloc, &mut bytes)
}

/// Takes the packet at the front of the bytes off them.
fn take_packet<B: PacketBytes>(
    alloc: Global,
    bytes: &mut B,
) -> Result<Read<ClientPacket>, ReadError>
    ensures exact { Answers takes_memory result (reading client_packets (B.contents bytes.old)) }
    ensures left { B.contents bytes.new ≡ bytes_left result (B.contents bytes.old) }
{
    let front = bytes.as_slice();
    if front.len() < 2 {
        return Ok(Read::Short);
    }
    if be_u16_at(front, 0) == USBIP_VERSION {
        return take_op_packet(bytes);
    }
    match take_urb(alloc, bytes)? {
        Read::Whole(request, size) => Ok(Read::Whole(ClientPacket::Urb(request), size)),
        Read::Short => Ok(Read::Short),
    }
}

fn take_op_packet<B: PacketBytes>(bytes: &mut B) -> Result<Read<ClientPacket>, ReadError>
    requires { is_op (B.contents bytes.old) ≡ true }
    ensures exact { Answers takes_memory result (reading client_packets (B.contents bytes.old)) }
    ensures left { B.contents bytes.new ≡ bytes_left result (B.contents bytes.old) }
{
    match read_request(bytes.as_slice())? {
        Read::Whole(packet, size) => {
            bytes.advance(size);
            Ok(Read::Whole(ClientPacket::Op(packet), size))
        }
        Read::Short => Ok(Read::Short),
    }
}

/// How all that a client sends is read: what came before decides nothing.
#[derive(Clone, Copy)]
pub struct ClientFormat;

impl PacketFormat for ClientFormat {
    type State = ();

    type Packet = ClientPacket;

    ghost format = { λ state. client_packets };

    ghost after = { λ state packet. state };

    ghost takes_memory = { takes_memory };

    fn take(
        alloc: Global,
        _state: &(),
        bytes: &mut ReceiveBuffer,
    ) -> Result<Read<ClientPacket>, ReadError> {
        take_packet(alloc, bytes)
    }

    fn awaited(_state: &(), bytes: &[u8]) -> usize {
        next_client(bytes)
    }

    fn next(_state: &mut (), _packet: &ClientPacket) {}

    ghost sound = { λ state. client_packets_sound };
}
