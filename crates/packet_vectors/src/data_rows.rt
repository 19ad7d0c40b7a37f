//! Rows of the fixed fields of packets with data, against every front of packets with right and wrong numbers of data.

use crate::fronts::push_answer;
use crate::output::Output;
use crate::reader::{Told, told_by};
use crate::type_rows::{CAPS, longer_of};
use packet_stream::ReadError;
use redir_data::read_redir;
use redir_wire::{Caps, RedirState, Way};
use std::alloc::Global;
use usb_base::{Bytes, Memory, Reason};

/// What a row says of a type: how many bytes its fixed fields have, the place of the length among them, and with which
/// capability they have how many.
#[derive(Clone, Copy)]
struct Form {
    number: u32,
    fixed: u32,
    place: u32,
    longer: Option<(Caps, u32)>,
}

/// The way of a packet, and its endpoint.
const COMINGS: [(Way, u8); 8] = [
    (Way::ToGuest, 0x00),
    (Way::ToGuest, 0x01),
    (Way::ToGuest, 0x80),
    (Way::ToGuest, 0x81),
    (Way::ToHost, 0x00),
    (Way::ToHost, 0x01),
    (Way::ToHost, 0x80),
    (Way::ToHost, 0x81),
];

/// An id of 7, with 32 bits and with 64.
const ID: [u8; 4] = [7, 0, 0, 0];

const WIDE_ID: [u8; 8] = [7, 0, 0, 0, 0, 0, 0, 0];

/// Lengths that are told, and how many data are there.
const COUNTS: [(u8, u8); 6] = [(0, 0), (0, 1), (5, 0), (5, 4), (5, 5), (5, 6)];

/// A packet to be read.
#[derive(Clone, Copy)]
struct Case {
    caps: Caps,
    way: Way,
    endpoint: u8,
    told: u8,
    count: u8,
}

/// A case in which so many bytes of the packet are read as the row doesn't say.
type Other = (Case, usize);

/// Appends `as told` where packets of this type are read as the row says, and else the first that isn't. The row is how
/// many bytes its fixed fields have, the place of the length, and what lengthens them, as `6:10`.
pub fn push_data_row(number: &str, row: &str, out: &mut Output) {
    let form = form_of(number, row, out);
    match other_of(out.alloc, form) {
        Ok(Some(other)) => push_other(other, form, out),
        Ok(None) => out.text("as told\n"),
        Err(memory) => out.note(Err(memory)),
    }
}

fn form_of(number: &str, row: &str, out: &mut Output) -> Form {
    let mut words = row.split_whitespace();
    Form {
        number: out.read(number.parse()),
        fixed: out.read(words.next().unwrap_or("").parse()),
        place: out.read(words.next().unwrap_or("").parse()),
        longer: longer_of(words.next(), out),
    }
}

/// The first front of a packet that is read as the row doesn't say.
fn other_of(alloc: Global, form: Form) -> Result<Option<Other>, Memory> {
    for caps in CAPS {
        if let Some(other) = other_with(alloc, form, caps)? {
            return Ok(Some(other));
        }
    }
    Ok(None)
}

/// The first with these capabilities.
fn other_with(alloc: Global, form: Form, caps: Caps) -> Result<Option<Other>, Memory> {
    for (way, endpoint) in COMINGS {
        if let Some(other) = other_count(alloc, form, caps, way, endpoint)? {
            return Ok(Some(other));
        }
    }
    Ok(None)
}

/// The first of such a packet, with each number of data.
fn other_count(
    alloc: Global,
    form: Form,
    caps: Caps,
    way: Way,
    endpoint: u8,
) -> Result<Option<Other>, Memory> {
    for (told, count) in COUNTS {
        let case = Case {
            caps,
            way,
            endpoint,
            told,
            count,
        };
        if let Some(front) = other_front(alloc, form, case)? {
            return Ok(Some((case, front)));
        }
    }
    Ok(None)
}

fn other_front(alloc: Global, form: Form, case: Case) -> Result<Option<usize>, Memory> {
    let packet = packet(alloc, form, case)?;
    for count in 0..=packet.len() {
        if read(alloc, case, &packet.as_slice()[..count]) != said(form, case, packet.len(), count) {
            return Ok(Some(count));
        }
    }
    Ok(None)
}

fn read(alloc: Global, case: Case, front: &[u8]) -> Told {
    let state = RedirState::later(case.caps);
    told_by(read_redir(alloc, state, case.way, front))
}

fn fixed_of(form: Form, case: Case) -> u32 {
    match form.longer {
        Some((capability, size)) if case.caps.contains(capability) => size,
        _ => form.fixed,
    }
}

/// A packet with id 7 and data of zeros, whose header announces its fixed fields and the data that are there.
fn packet(alloc: Global, form: Form, case: Case) -> Result<Bytes, Memory> {
    let fixed = fixed_of(form, case);
    let length = fixed.saturating_add(u32::from(case.count));
    let mut packet = Output::new(alloc);
    packet.append(&form.number.to_le_bytes());
    packet.append(&length.to_le_bytes());
    if case.caps.contains(Caps::WIDE_IDS) {
        packet.append(&WIDE_ID);
    } else {
        packet.append(&ID);
    }
    for place in 0..fixed {
        packet.append(&[field_at(form, case, place)]);
    }
    for _ in 0..case.count {
        packet.append(&[0]);
    }
    packet.taken()
}

/// The byte of the fixed fields at a place: the endpoint, the length's lower half, and else 0.
fn field_at(form: Form, case: Case, place: u32) -> u8 {
    if place == 0 {
        case.endpoint
    } else if place == form.place {
        case.told
    } else {
        0
    }
}

/// What the row says of so many bytes of a packet of this size: data stand in packets to the host of OUT endpoints, and
/// in packets to the guest of IN endpoints, as many as the length tells.
fn said(form: Form, case: Case, size: usize, count: usize) -> Told {
    let head = if case.caps.contains(Caps::WIDE_IDS) {
        16
    } else {
        12
    };
    let carries = (case.way == Way::ToHost) == (case.endpoint < 0x80);
    let right = case.count == if carries { case.told } else { 0 };
    if count >= head + fixed_of(form, case) as usize && !right {
        return Told::Wrong(ReadError::Refused {
            place: head as u64 + u64::from(form.place),
            reason: Reason::DataLength,
        });
    }
    if count < size {
        Told::Short
    } else {
        Told::Whole(size)
    }
}

fn push_other((case, count): Other, form: Form, out: &mut Output) {
    push_case(case, count, form.number, out);
    match packet(out.alloc, form, case) {
        Ok(packet) => push_answers(case, form, count, packet.as_slice(), out),
        Err(memory) => out.note(Err(memory)),
    }
}

fn push_answers(case: Case, form: Form, count: usize, packet: &[u8], out: &mut Output) {
    let front = packet.get(..count).unwrap_or(&[]);
    push_answer(read(out.alloc, case, front), out);
    out.text(", not ");
    push_answer(said(form, case, packet.len(), count), out);
    out.text("\n");
}

fn push_case(case: Case, count: usize, number: u32, out: &mut Output) {
    let Case {
        caps: Caps(bits),
        endpoint,
        told,
        count: there,
        ..
    } = case;
    out.made(format!(in out.alloc;
        "type {number}, endpoint {endpoint:02x}, length {told}, {there} data, capabilities {bits:x}, {count} bytes: "
    ));
}
