//! The packets of a made tape's client.

ghost use Rattle.std.specs.Prelude.{◌≡◌, replicate, IfOk};
ghost use Rattle.usbip_urb.specs.Ranges.{IsWritable};
ghost use Rattle.usbip_urb.specs.Spelling.{spelling};
ghost use Rattle.made_tape.specs.Packets.{import_bytes, submit_packet, configure_bytes, send_bytes, ask_bytes, take_back_bytes};

use std::alloc::Global;
use usb_base::{Bytes, List, Memory, padded};
use usbip_op::{BUS_ID, OpPacket, write_op};
use usbip_urb::{
    EXPORTED_DEVID, Head, Submit, USBIP_DIR_IN, USBIP_DIR_OUT, Unlink, UrbPacket, write_urb,
};

/// SET_CONFIGURATION with the value 1.
const CONFIGURE: [u8; 8] = [0, 9, 1, 0, 0, 0, 0, 0];

/// The seqnum of a round's unlink is this plus the round.
pub const UNLINKS: u32 = 0x8000_0000;

/// Asks for the device.
pub fn import(alloc: Global) -> Result<Bytes, Memory>
    ensures { IfOk result (λ bytes. bytes ≡ import_bytes) }
{
    let mut bytes = Bytes::new(alloc);
    let packet = OpPacket::ReqImport {
        status: 0,
        busid: padded(&BUS_ID),
    };
    write_op(&packet, &mut bytes)?;
    Ok(bytes)
}

/// Sets the configuration.
pub fn configure(alloc: Global) -> Result<Bytes, Memory>
    ensures { IfOk result (λ bytes. bytes ≡ configure_bytes) }
{
    let body = Bytes::new(alloc);
    spelled(
        alloc,
        &submit(alloc, 1, USBIP_DIR_OUT, 0, 0, CONFIGURE, body),
    )
}

/// Sends so many bytes, each of them the round, counted from 1, modulo 256.
pub fn send(alloc: Global, round: u16, size: u16) -> Result<Bytes, Memory>
    ensures { IfOk result (λ bytes. bytes ≡ send_bytes round size) }
{
    let body = repeated(alloc, (round % 256) as u8, size)?;
    let seqnum = 2 * u32::from(round);
    spelled(
        alloc,
        &submit(
            alloc,
            seqnum,
            USBIP_DIR_OUT,
            1,
            u32::from(size),
            [0; 8],
            body,
        ),
    )
}

/// Asks for so many bytes.
pub fn ask(alloc: Global, round: u16, size: u16) -> Result<Bytes, Memory>
    ensures { IfOk result (λ bytes. bytes ≡ ask_bytes round size) }
{
    let body = Bytes::new(alloc);
    let seqnum = 2 * u32::from(round) + 1;
    spelled(
        alloc,
        &submit(
            alloc,
            seqnum,
            USBIP_DIR_IN,
            1,
            u32::from(size),
            [0; 8],
            body,
        ),
    )
}

/// Takes back what was asked for.
pub fn take_back(alloc: Global, round: u16) -> Result<Bytes, Memory>
    ensures { IfOk result (λ bytes. bytes ≡ take_back_bytes round) }
{
    let round = u32::from(round);
    let unlink = Unlink {
        head: head(UNLINKS + round, USBIP_DIR_OUT, 0),
        target: 2 * round + 1,
        pad: [0; 24],
    };
    spelled(alloc, &UrbPacket::Unlink(unlink))
}

/// A submit with no flags and no isochronous packets.
fn submit(
    alloc: Global,
    seqnum: u32,
    direction: u32,
    ep: u32,
    length: u32,
    setup: [u8; 8],
    body: Bytes,
) -> UrbPacket
    ensures { result ≡ submit_packet seqnum direction ep length setup body }
{
    UrbPacket::Submit(Submit {
        head: head(seqnum, direction, ep),
        flags: 0,
        length,
        start_frame: 0,
        packets: 0,
        interval: 0,
        setup,
        body,
        descs: List::new(alloc),
    })
}

fn head(seqnum: u32, direction: u32, ep: u32) -> Head
    ensures { result ≡ record { seqnum = seqnum; devid = EXPORTED_DEVID; direction = direction; ep = ep } }
{
    Head {
        seqnum,
        devid: EXPORTED_DEVID,
        direction,
        ep,
    }
}

/// The byte, so many times.
fn repeated(alloc: Global, byte: u8, count: u16) -> Result<Bytes, Memory>
    ensures { IfOk result (λ bytes. bytes ≡ replicate count byte) }
{
    let items = vec![in alloc; byte; usize::from(count)]?;
    let mut bytes = Bytes::new(alloc);
    bytes.append(&items)?;
    Ok(bytes)
}

fn spelled(alloc: Global, packet: &UrbPacket) -> Result<Bytes, Memory>
    requires { IsWritable packet.now }
    ensures { IfOk result (λ bytes. bytes ≡ spelling packet.now) }
{
    let mut bytes = Bytes::new(alloc);
    write_urb(packet, &mut bytes)?;
    Ok(bytes)
}
