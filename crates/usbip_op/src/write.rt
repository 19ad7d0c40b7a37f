//! Packets written.

ghost use Rattle.std.specs.Prelude.{◌≡◌, ◌++◌, ℕ, List, length, flat_map};
ghost use Rattle.usbip_op.specs.Spelling.{spelling, device_bytes, listed_bytes, interface_bytes, numbers_bytes, classes_bytes, head_bytes};
ghost use Rattle.usbip_op.specs.Ranges.{IsInRange, IsWritable, way_of};
ghost use Rattle.packet_stream.specs.Format.{reading, Whole};
ghost use Rattle.usbip_op.specs.Packets.{packets_of};
ghost use Rattle.usbip_op.specs.declared.packet.OpPacket.{OpPacket as Packet};
ghost use Rattle.usb_base.specs.Writes.{Appends, AppendsSome};

use crate::code::{OP_REP_DEVLIST, OP_REP_IMPORT, OP_REQ_DEVLIST, OP_REQ_IMPORT, USBIP_VERSION};
use crate::packet::{DeviceRow, IfaceRow, Listed, OpPacket};
use usb_base::{Bytes, Memory, push_be_u16, push_be_u32};

/// A law: what a sender writes is read as that packet again, whatever comes after it.
pub fn written_again()
    ensures { (p : Packet) (more : List ℕ) → IsInRange p → IsWritable p
        → reading (packets_of (way_of p)) (spelling p ++ more) ≡ Whole p (length (spelling p)) }
{}

/// Appends a packet. For want of memory the bytes stay as they were.
pub fn write_op(packet: &OpPacket, out: &mut Bytes) -> Result<(), Memory>
    requires { IsWritable packet.now }
    ensures { Appends result out.old out.new (spelling packet.now) }
{
    let before = out.len();
    let pushed = push_packet(packet, out);
    out.cut_on_err(before, pushed)
}

fn push_packet(packet: &OpPacket, out: &mut Bytes) -> Result<(), Memory>
    requires { IsWritable packet.now }
    ensures { AppendsSome result out.old out.new (spelling packet.now) }
{
    match packet {
        OpPacket::ReqDevlist { status } => push_head(OP_REQ_DEVLIST, *status, out),
        OpPacket::ReqImport { status, busid } => {
            push_head(OP_REQ_IMPORT, *status, out)?;
            out.append(busid)?;
            Ok(())
        }
        OpPacket::RepDevlist { status, devices } => {
            push_head(OP_REP_DEVLIST, *status, out)?;
            if *status != 0 {
                return Ok(());
            }
            push_be_u32(out, devices.len() as u32)?;
            push_devices(devices.as_slice(), out)?;
            Ok(())
        }
        OpPacket::RepImport { status, device } => {
            push_head(OP_REP_IMPORT, *status, out)?;
            match device {
                None => Ok(()),
                Some(device) => push_device(device, out),
            }
        }
    }
}

fn push_head(code: u16, status: u32, out: &mut Bytes) -> Result<(), Memory>
    ensures { AppendsSome result out.old out.new (head_bytes code status) }
{
    push_be_u16(out, USBIP_VERSION)?;
    push_be_u16(out, code)?;
    push_be_u32(out, status)?;
    Ok(())
}

fn push_devices(devices: &[Listed], out: &mut Bytes) -> Result<(), Memory>
    ensures { AppendsSome result out.old out.new (flat_map listed_bytes devices.now) }
{
    for listed in devices {
        push_device(&listed.device, out)?;
        push_interfaces(listed.interfaces.as_slice(), out)?;
    }
    Ok(())
}

fn push_interfaces(interfaces: &[IfaceRow], out: &mut Bytes) -> Result<(), Memory>
    ensures { AppendsSome result out.old out.new (flat_map interface_bytes interfaces.now) }
{
    for interface in interfaces {
        out.append(&[
            interface.class,
            interface.subclass,
            interface.protocol,
            interface.pad,
        ])?;
    }
    Ok(())
}

fn push_device(device: &DeviceRow, out: &mut Bytes) -> Result<(), Memory>
    ensures { AppendsSome result out.old out.new (device_bytes device.now) }
{
    out.append(&device.path)?;
    out.append(&device.busid)?;
    push_numbers(device, out)?;
    push_classes(device, out)?;
    Ok(())
}

fn push_numbers(device: &DeviceRow, out: &mut Bytes) -> Result<(), Memory>
    ensures { AppendsSome result out.old out.new (numbers_bytes device.now) }
{
    push_be_u32(out, device.busnum)?;
    push_be_u32(out, device.devnum)?;
    push_be_u32(out, device.speed)?;
    push_be_u16(out, device.vendor)?;
    push_be_u16(out, device.product)?;
    push_be_u16(out, device.version)?;
    Ok(())
}

fn push_classes(device: &DeviceRow, out: &mut Bytes) -> Result<(), Memory>
    ensures { AppendsSome result out.old out.new (classes_bytes device.now) }
{
    out.append(&[
        device.class,
        device.subclass,
        device.protocol,
        device.configuration,
        device.configurations,
        device.interfaces,
    ])
}
