//! Packets that streams hold, and what requests are given of them: each call once.

use std::alloc::Global;
use std::process::Abort;
use std::test::Fail;
use stream_buffers::{IsoFilling, MAX_HELD, Up};
use usb_base::{Bytes, EpAddr, EpKind, EpRow, List, Memory, StreamPacket, UsbStatus};
use usbip_urb::{Descs, IsoDesc};

const OK: UsbStatus = UsbStatus::Success;

/// Of each row a status, a byte, and how often it stands in the packet.
const HELD: [(UsbStatus, u8, usize); 6] = [
    (OK, 1, 2),
    (OK, 2, 1),
    (OK, 3, 4),
    (OK, 4, 3),
    (UsbStatus::Stall, 5, 1),
    (OK, 6, 2),
];

fn packet(
    alloc: Global,
    status: UsbStatus,
    byte: u8,
    count: usize,
) -> Result<StreamPacket, Memory> {
    let mut body = Bytes::new(alloc);
    for _ in 0..count {
        body.push(byte)?;
    }
    Ok(StreamPacket { status, body })
}

// The stream of IN endpoint 1, whose largest packet has so many bytes.
fn stream(alloc: Global, max_packet: u16) -> Result<Up, Fail> {
    let ep = EpAddr::new(0x81).ok_or("it is an address")?;
    let row = EpRow {
        kind: EpKind::Interrupt,
        interval: 1,
        interface: 0,
        max_packet,
    };
    Ok(Up::new(alloc, ep, row))
}

// That of packets of two bytes.
fn holding(alloc: Global) -> Result<Up, Fail> {
    let mut up = stream(alloc, 2)?;
    for (status, byte, count) in HELD {
        up.receive(packet(alloc, status, byte, count)?)?;
    }
    Ok(up)
}

// Two descriptors, which ask for two bytes each.
fn two(alloc: Global) -> Result<Descs, Memory> {
    let mut descs = List::new(alloc);
    for offset in [0, 8] {
        descs.push(IsoDesc {
            offset,
            length: 2,
            actual: 0,
            status: 0,
        })?;
    }
    Ok(descs)
}

fn take(rt: &impl Abort, up: &mut Up, descs: &Descs, out: &mut Bytes) -> Result<(), Fail> {
    let filling = up.filling(0, 4).ok_or("it is filled")?;
    assert!(rt; (filling.count, filling.status, filling.done) == (2, OK, 3));
    up.behind(0).append_bodies(filling, out)?;
    up.skip(filling.count);
    assert!(rt; (up.len(), descs.len()) == (4, 2));
    up.behind(0).append_pieces(descs, out)?;
    up.skip(descs.len());
    assert!(rt; out.as_slice() == [1, 1, 2, 3, 3, 4, 4].as_slice());
    assert!(rt; up.len() == 2);
    up.withdraw();
    assert!(rt; up.len() == 1);
    up.clear();
    assert!(rt; up.len() == 0);
    Ok(())
}

#[test]
fn requests_take_packets(rt: HostRuntime) -> Result<(), Fail> {
    let descs = two(rt.alloc())?;
    take(
        &rt,
        &mut holding(rt.alloc())?,
        &descs,
        &mut Bytes::new(rt.alloc()),
    )
}

// Whether one more packet is held.
fn holds_one_more(alloc: Global, up: &mut Up) -> Result<bool, Memory> {
    up.receive(packet(alloc, OK, 7, 8)?)
}

fn fill(rt: &(impl Abort + AllocGlobal), up: &mut Up) -> Result<(), Fail> {
    for _ in 0..MAX_HELD {
        assert!(rt; holds_one_more(rt.alloc(), up)?);
    }
    assert!(rt; !holds_one_more(rt.alloc(), up)?);
    assert!(rt; up.len() == MAX_HELD);
    Ok(())
}

#[test]
fn no_more_than_1024_packets_are_held(rt: HostRuntime) -> Result<(), Fail> {
    fill(&rt, &mut stream(rt.alloc(), 8)?)
}

fn bodies_behind_one(rt: &impl Abort, up: &mut Up, out: &mut Bytes) -> Result<(), Fail> {
    assert!(rt; 1 <= up.len());
    let filling = up.filling(1, 9).ok_or("it is filled")?;
    assert!(rt; (filling.count, filling.status, filling.done) == (1, OK, 1));
    up.behind(1).append_bodies(filling, out)?;
    assert!(rt; out.as_slice() == [2].as_slice());
    Ok(())
}

fn pieces_behind_three(
    rt: &impl Abort,
    up: &Up,
    descs: &Descs,
    out: &mut Bytes,
) -> Result<(), Fail> {
    assert!(rt; (up.len(), descs.len()) == (6, 2));
    let filling = IsoFilling { done: 3, errors: 2 };
    assert!(rt; up.behind(3).iso_filling(descs) == Some(filling));
    up.behind(3).append_pieces(descs, out)?;
    up.behind(3).append_filled(descs, out)?;
    Ok(())
}

// The pieces; then of each descriptor offset, length, actual length and status: -75 and -32.
const FILLED: [u8; 36] = [
    2, 4, 4, 5, //
    0, 0, 0, 0, 0, 0, 0, 2, 0, 0, 0, 2, 0xFF, 0xFF, 0xFF, 0xB5, //
    0, 0, 0, 8, 0, 0, 0, 2, 0, 0, 0, 1, 0xFF, 0xFF, 0xFF, 0xE0,
];

fn append_behind_others(
    rt: &impl Abort,
    up: &mut Up,
    descs: &Descs,
    out: &mut Bytes,
) -> Result<(), Fail> {
    bodies_behind_one(rt, up, out)?;
    pieces_behind_three(rt, up, descs, out)?;
    assert!(rt; out.as_slice() == FILLED.as_slice());
    Ok(())
}

#[test]
fn packets_behind_others_are_appended(rt: HostRuntime) -> Result<(), Fail> {
    let descs = two(rt.alloc())?;
    append_behind_others(
        &rt,
        &mut holding(rt.alloc())?,
        &descs,
        &mut Bytes::new(rt.alloc()),
    )
}
