//! A client's requests, as few bytes as they have.

ghost use Rattle.std.specs.Prelude.{◌≡◌, ℕ};
ghost use Rattle.usbip_op.specs.declared.packet.OpPacket.TheVariants.{ReqDevlist, ReqImport};
ghost use Rattle.usbip_op.specs.declared.packet.OpWay.TheVariants.{Request};
ghost use Rattle.usbip_op.specs.Ranges.{way_of};
ghost use Rattle.usbip_op.specs.Asked.{request_of, status_of};

use crate::code::BUS_ID_SIZE;
use crate::packet::OpPacket;
use std::marker::Model;

/// A list or an import request. It means an `OpPacket`, but has no room for a reply, so that it is moved as the few
/// bytes that it has.
#[derive(Drop)]
pub struct OpRequest {
    status: u32,
    /// The device that an import asks for.
    busid: Option<[u8; BUS_ID_SIZE]>,
}

impl Model for OpRequest {
    ghost use Rattle.usbip_op.specs.declared.packet.OpPacket.{OpPacket};
    ghost use Rattle.usbip_op.specs.Asked.{request_of};

    ghost Value = { OpPacket };

    ghost view = { λ request. request_of request.status request.busid };
}

impl OpRequest {
    /// Asks for the list.
    pub(crate) fn devlist(status: u32) -> OpRequest
        ensures { result ≡ ReqDevlist status }
    {
        OpRequest {
            status,
            busid: None,
        }
    }

    /// Asks for this device.
    pub(crate) fn import(status: u32, busid: [u8; BUS_ID_SIZE]) -> OpRequest
        ensures { result ≡ ReqImport status busid }
    {
        OpRequest {
            status,
            busid: Some(busid),
        }
    }

    /// Its status, which a client sends as 0.
    pub fn status(&self) -> u32
        ensures { result ≡ status_of self.now }
    {
        self.status
    }

    /// The device that an import asks for, and None of a list request.
    pub fn busid(&self) -> Option<[u8; BUS_ID_SIZE]>
        ensures { (status : ℕ) × (self.now ≡ request_of status result) }
    {
        self.busid
    }

    /// The same as a packet.
    pub fn packet(&self) -> OpPacket
        ensures same { result ≡ self.now }
        ensures request { way_of result ≡ Request }
    {
        let status = self.status;
        match self.busid {
            None => OpPacket::ReqDevlist { status },
            Some(busid) => OpPacket::ReqImport { status, busid },
        }
    }
}
