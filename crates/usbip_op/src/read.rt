//! Packets read.

ghost use Rattle.std.specs.Prelude.{◌≡◌, Some};
ghost use Rattle.packet_stream.specs.Format.{IsSound, StandsAtFront, reading};
ghost use Rattle.packet_stream.specs.Reads.{told, IfTold, Answers};
ghost use Rattle.usbip_op.specs.Requests.{requests};
ghost use Rattle.usbip_op.specs.Packets.{packets_of, takes_memory};
ghost use Rattle.usbip_op.specs.declared.packet.OpWay.{OpWay as Way};

use crate::check::wrong_head;
use crate::code::{BUS_ID_SIZE, HEADER_SIZE, OP_REQ_DEVLIST, OP_REQ_IMPORT};
use crate::packet::{OpError, OpRead, OpWay};
use crate::reply::read_reply;
use crate::request::OpRequest;
use packet_stream::Read;
use std::alloc::Global;
use usb_base::{array_at, be_u16_at, be_u32_at};

/// A law: what is read as a packet of either way is spelled so, and what is spelled so is read.
pub fn packets_sound()
    ensures { (way : Way) → IsSound (packets_of way) }
{}

/// Reads the packet at the front of the bytes that goes this way. Bytes after it don't matter. It is refused as
/// soon as the bytes of a wrong field are there: `Version` at place 0, `OpCode` at 2, and in replies `Count` at
/// 8. Memory may be wanting only for a list that is whole and has a row; its bytes may be read again.
pub fn read_op(alloc: Global, way: OpWay, bytes: &[u8]) -> Result<OpRead, OpError>
    ensures stands { IfTold result (StandsAtFront (packets_of way) bytes.now) }
    ensures exact { Answers takes_memory result (reading (packets_of way) bytes.now) }
{
    match way {
        OpWay::Request => request_packet(bytes),
        OpWay::Reply => read_reply(alloc, bytes),
    }
}

/// Reads the request at the front of the bytes as a packet.
fn request_packet(bytes: &[u8]) -> Result<OpRead, OpError>
    ensures stands { IfTold result (StandsAtFront requests bytes.now) }
    ensures exact { told result ≡ Some (reading requests bytes.now) }
{
    match read_request(bytes)? {
        Read::Whole(request, size) => Ok(Read::Whole(request.packet(), size)),
        Read::Short => Ok(Read::Short),
    }
}

/// Reads the request at the front of the bytes, as `read_op` does. It takes no memory.
pub fn read_request(bytes: &[u8]) -> Result<Read<OpRequest>, OpError>
    ensures stands { IfTold result (StandsAtFront requests bytes.now) }
    ensures exact { told result ≡ Some (reading requests bytes.now) }
{
    if let Some((place, reason)) = wrong_head(bytes, OP_REQ_DEVLIST, OP_REQ_IMPORT) {
        return Err(OpError::Refused { place, reason });
    }
    if bytes.len() < 4 {
        return Ok(Read::Short);
    }
    if be_u16_at(bytes, 2) == OP_REQ_DEVLIST {
        if bytes.len() < HEADER_SIZE {
            return Ok(Read::Short);
        }
        let status = be_u32_at(bytes, 4);
        return Ok(Read::Whole(OpRequest::devlist(status), HEADER_SIZE));
    }
    let size = HEADER_SIZE + BUS_ID_SIZE;
    if bytes.len() < size {
        return Ok(Read::Short);
    }
    let status = be_u32_at(bytes, 4);
    let busid = array_at(bytes, 8);
    Ok(Read::Whole(OpRequest::import(status, busid), size))
}
