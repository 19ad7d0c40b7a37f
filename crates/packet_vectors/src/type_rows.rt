//! Rows of the protocol description's table of types, against every front of every header that tells them apart.

use crate::fronts::push_answer;
use crate::output::Output;
use crate::reader::{Told, redir_way, told_by};
use packet_stream::ReadError;
use redir_wire::{Caps, RedirState, Way, read_header};
use usb_base::Reason;

/// What a row says of a type.
#[derive(Clone, Copy)]
enum Listed {
    /// There is no such type.
    Unknown,
    /// It is a type of the protocol that is never agreed to.
    LeftOut,
    Sent(Form),
}

/// What a row says of a type that is sent.
#[derive(Clone, Copy)]
struct Form {
    /// The one way that it goes, or none where it goes both.
    only: Option<Way>,
    /// The capability that it wants.
    wanted: Option<Caps>,
    /// Its length. That of a hello and of packets with data is the least.
    short: u32,
    /// The capability that lengthens it, and its length with it.
    longer: Option<(Caps, u32)>,
}

/// No capability, each one that makes a difference alone, all that are announced, and every bit.
pub const CAPS: [Caps; 8] = [
    Caps(0),
    Caps::CONNECT_VERSION,
    Caps::DISCONNECT_ACK,
    Caps::MAX_PACKET_SIZE,
    Caps::WIDE_IDS,
    Caps::WIDE_BULK_LENGTH,
    Caps::ANNOUNCED,
    Caps(u32::MAX),
];

/// The way of a packet, and whether it is the first of its stream.
const COMINGS: [(Way, bool); 4] = [
    (Way::ToGuest, true),
    (Way::ToGuest, false),
    (Way::ToHost, true),
    (Way::ToHost, false),
];

/// The lengths around the greatest that a header may tell.
const LONG: [u32; 3] = [16_777_280, 16_777_281, u32::MAX];

/// A header to be read, and what is told beside it.
#[derive(Clone, Copy)]
struct Case {
    state: RedirState,
    way: Way,
    number: u32,
    length: u32,
}

/// A case in which so many bytes of the header are read as the row doesn't say.
type Other = (Case, usize);

/// Appends `as told` where headers of these types are read as the row says, and else the first that isn't. The
/// numbers are one, or two with a hyphen between them; the row is `unknown`, `left out`, or a way or `-`, the number of
/// the capability that is wanted or `-`, a length, and what lengthens it, as `4:160`.
pub fn push_type_row(numbers: &str, row: &str, out: &mut Output) {
    let (from, to) = numbers.split_once('-').unwrap_or((numbers, numbers));
    let from = out.read(from.parse());
    let to = out.read(to.parse());
    let listed = listed_of(row, out);
    match other_among(from, to, listed) {
        Some(other) => push_other(other, listed, out),
        None => out.text("as told\n"),
    }
}

fn listed_of(row: &str, out: &mut Output) -> Listed {
    match row {
        "unknown" => Listed::Unknown,
        "left out" => Listed::LeftOut,
        _ => Listed::Sent(form_of(row, out)),
    }
}

fn form_of(row: &str, out: &mut Output) -> Form {
    let mut words = row.split_whitespace();
    Form {
        only: only_of(words.next().unwrap_or(""), out),
        wanted: wanted_of(words.next().unwrap_or(""), out),
        short: out.read(words.next().unwrap_or("").parse()),
        longer: longer_of(words.next(), out),
    }
}

fn only_of(word: &str, out: &mut Output) -> Option<Way> {
    match word {
        "-" => None,
        way => Some(redir_way(way, out)),
    }
}

fn wanted_of(word: &str, out: &mut Output) -> Option<Caps> {
    match word {
        "-" => None,
        number => Some(flag_of(number, out)),
    }
}

/// The capability that lengthens a type, and its length with it, of words as `4:160`.
pub fn longer_of(word: Option<&str>, out: &mut Output) -> Option<(Caps, u32)> {
    let (number, length) = word?.split_once(':').unwrap_or(("", ""));
    Some((flag_of(number, out), out.read(length.parse())))
}

/// The capability of this number, which is below 32.
fn flag_of(number: &str, out: &mut Output) -> Caps {
    let number = out.read(number.parse());
    let Some(bits) = 1_u32.checked_shl(number) else {
        out.refuse();
        return Caps::empty();
    };
    Caps(bits)
}

/// The first front of a header of these types that is read as the row doesn't say.
fn other_among(from: u32, to: u32, listed: Listed) -> Option<Other> {
    for number in from..=to {
        if let Some(other) = other_of_type(number, listed) {
            return Some(other);
        }
    }
    None
}

fn other_of_type(number: u32, listed: Listed) -> Option<Other> {
    for caps in CAPS {
        if let Some(other) = other_with(number, caps, listed) {
            return Some(other);
        }
    }
    None
}

/// The first with these capabilities.
fn other_with(number: u32, caps: Caps, listed: Listed) -> Option<Other> {
    for (way, first) in COMINGS {
        let case = Case {
            state: RedirState { first, caps },
            way,
            number,
            length: 0,
        };
        if let Some(other) = other_at(case, listed) {
            return Some(other);
        }
    }
    None
}

/// The length tells something only where the type may come.
fn other_at(case: Case, listed: Listed) -> Option<Other> {
    match listed {
        Listed::Sent(_) if case.state.first == (case.number == 0) => other_length(case, listed),
        _ => other_front(case, listed),
    }
}

fn other_length(case: Case, listed: Listed) -> Option<Other> {
    for length in 0..200 {
        if let Some(other) = other_front(Case { length, ..case }, listed) {
            return Some(other);
        }
    }
    for length in LONG {
        if let Some(other) = other_front(Case { length, ..case }, listed) {
            return Some(other);
        }
    }
    None
}

fn other_front(case: Case, listed: Listed) -> Option<Other> {
    let bytes = header_bytes(case.number, case.length);
    let size = size_of(case);
    for count in 0..=size {
        if read(case, &bytes, count) != said(case, listed, size, count) {
            return Some((case, count));
        }
    }
    None
}

fn read(case: Case, bytes: &[u8; 16], count: usize) -> Told {
    let front = &bytes[..count.min(16)];
    told_by(read_header(case.state, case.way, front))
}

/// How many bytes the header has: an id has 64 bits where that is agreed, but for a hello's.
fn size_of(case: Case) -> usize {
    if !case.state.first && case.state.caps.contains(Caps::WIDE_IDS) {
        16
    } else {
        12
    }
}

/// A header whose id has each byte another value.
fn header_bytes(number: u32, length: u32) -> [u8; 16] {
    let [n0, n1, n2, n3] = number.to_le_bytes();
    let [l0, l1, l2, l3] = length.to_le_bytes();
    [n0, n1, n2, n3, l0, l1, l2, l3, 1, 2, 3, 4, 5, 6, 7, 8]
}

/// What the row says of so many bytes of a header.
fn said(case: Case, listed: Listed, size: usize, count: usize) -> Told {
    if count < 4 {
        return Told::Short;
    }
    if case.state.first != (case.number == 0) {
        return refused(0, Reason::HelloFirst);
    }
    match listed {
        Listed::Unknown => refused(0, Reason::UnknownType),
        Listed::LeftOut => refused(0, Reason::NotAgreed),
        Listed::Sent(form) => said_of(case, form, size, count),
    }
}

fn refused(place: u64, reason: Reason) -> Told {
    Told::Wrong(ReadError::Refused { place, reason })
}

/// What the row of a type that is sent says of four bytes of its header or more.
fn said_of(case: Case, form: Form, size: usize, count: usize) -> Told {
    if let Some(wanted) = form.wanted
        && !case.state.caps.contains(wanted)
    {
        return refused(0, Reason::NotAgreed);
    }
    if let Some(only) = form.only
        && only != case.way
    {
        return refused(0, Reason::WrongWay);
    }
    if count >= 8 && case.length > 16_777_280 {
        return refused(4, Reason::TooLong26);
    }
    if count >= 8 && !is_length(case, form) {
        return refused(4, Reason::BadLength);
    }
    if count < size {
        Told::Short
    } else {
        Told::Whole(size)
    }
}

/// Whether a packet of this type may have this length.
fn is_length(case: Case, form: Form) -> bool {
    let least = match form.longer {
        Some((capability, long)) if case.state.caps.contains(capability) => long,
        _ => form.short,
    };
    match case.number {
        0 => case.length >= 64 && case.length <= 192 && case.length % 4 == 0,
        100..=103 => case.length >= least,
        _ => case.length == least,
    }
}

fn push_other((case, count): Other, listed: Listed, out: &mut Output) {
    push_case(case, count, out);
    push_answer(
        read(case, &header_bytes(case.number, case.length), count),
        out,
    );
    out.text(", not ");
    push_answer(said(case, listed, size_of(case), count), out);
    out.text("\n");
}

fn push_case(case: Case, count: usize, out: &mut Output) {
    let Case {
        state: RedirState { first, caps },
        number,
        length,
        ..
    } = case;
    let bits = caps.0;
    out.made(format!(in out.alloc;
        "type {number}, length {length}, first {first}, capabilities {bits:x}, {count} bytes: "
    ));
}
