//! The lines of what a USB/IP server answers: each field as a number in decimal, and bytes in hexadecimal, in the order
//! in which they stand in the packet.

use crate::lines::push_begin;
use crate::output::Output;
use usbip_op::{DeviceRow, IfaceRow, Listed, ListedRows};
use usbip_urb::{Head, IsoDesc, RetSubmit, RetUnlink};

/// Appends how many devices a list has, the end of the line, and a line for each.
pub fn push_devices(devices: &ListedRows, out: &mut Output) {
    out.number(" ", devices.len() as u64, "\n");
    for listed in devices.as_slice() {
        push_listed(listed, out);
    }
}

fn push_listed(listed: &Listed, out: &mut Output) {
    out.text("DEVICE");
    push_device(&listed.device, out);
    for interface in listed.interfaces.as_slice() {
        push_interface(interface, out);
    }
    out.text("\n");
}

fn push_interface(interface: &IfaceRow, out: &mut Output) {
    out.four([
        i64::from(interface.class),
        i64::from(interface.subclass),
        i64::from(interface.protocol),
        i64::from(interface.pad),
    ]);
}

/// Appends the fields of a device.
pub fn push_device(device: &DeviceRow, out: &mut Output) {
    push_bytes(&device.path, out);
    push_bytes(&device.busid, out);
    out.numbers(&[
        i64::from(device.busnum),
        i64::from(device.devnum),
        i64::from(device.speed),
        i64::from(device.vendor),
        i64::from(device.product),
        i64::from(device.version),
        i64::from(device.class),
        i64::from(device.subclass),
        i64::from(device.protocol),
        i64::from(device.configuration),
        i64::from(device.configurations),
        i64::from(device.interfaces),
    ]);
}

/// Appends the line of a submit's answer.
pub fn push_ret_submit(place: u64, answer: &RetSubmit, out: &mut Output) {
    push_head(place, " RET_SUBMIT", &answer.head, out);
    out.numbers(&[
        i64::from(answer.status),
        i64::from(answer.actual),
        i64::from(answer.start_frame),
        i64::from(answer.packets),
        i64::from(answer.errors),
    ]);
    push_bytes(&answer.tail, out);
    push_bytes(answer.body.as_slice(), out);
    for desc in answer.descs.as_slice() {
        push_desc(desc, out);
    }
    out.text("\n");
}

/// Appends the line of an unlink's answer.
pub fn push_ret_unlink(place: u64, answer: &RetUnlink, out: &mut Output) {
    push_head(place, " RET_UNLINK", &answer.head, out);
    out.numbers(&[i64::from(answer.status)]);
    push_bytes(&answer.pad, out);
    out.text("\n");
}

fn push_head(place: u64, name: &str, head: &Head, out: &mut Output) {
    let numbers = [
        i64::from(head.seqnum),
        i64::from(head.devid),
        i64::from(head.direction),
        i64::from(head.ep),
    ];
    push_begin(place, name, &numbers, out);
}

fn push_bytes(bytes: &[u8], out: &mut Output) {
    out.text(" ");
    out.hex(bytes);
}

fn push_desc(desc: &IsoDesc, out: &mut Output) {
    out.four([
        i64::from(desc.offset),
        i64::from(desc.length),
        i64::from(desc.actual),
        i64::from(desc.status),
    ]);
}
