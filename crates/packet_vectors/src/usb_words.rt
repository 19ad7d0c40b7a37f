//! USB's words: reasons and refusals, speeds, statuses, endpoints, setups and their routes, capabilities.

use crate::output::Output;
use crate::reader::caps_of;
use control_route::{Route, is_change, route_of, touches};
use redir_wire::Caps;
use usb_base::{
    EpAddr, EpKind, EpTable, Reason, Refusal, Setup, Side, Speed, UsbStatus, is_in_endpoint,
};

const REASONS: [Reason; 22] = [
    Reason::Version,
    Reason::OpCode,
    Reason::Command,
    Reason::Device,
    Reason::Direction,
    Reason::Endpoint,
    Reason::TooLong,
    Reason::Packets,
    Reason::NotImported,
    Reason::AlreadyImported,
    Reason::DuplicateSeq,
    Reason::HelloFirst,
    Reason::UnknownType,
    Reason::NotAgreed,
    Reason::WrongWay,
    Reason::BadLength,
    Reason::Count,
    Reason::TooLong26,
    Reason::DataLength,
    Reason::Mismatch,
    Reason::Stray,
    Reason::Length,
];

fn reason_named(name: &str, out: &mut Output) -> Reason {
    for reason in REASONS {
        if reason.name() == name {
            return reason;
        }
    }
    out.refuse();
    Reason::Version
}

fn side_named(name: &str, out: &mut Output) -> Side {
    match name {
        "client" => Side::Client,
        "host" => Side::Host,
        _ => {
            out.refuse();
            Side::Client
        }
    }
}

/// Appends the line of a refusal, of which the words are the side, the place, the reason and any two values.
pub fn push_refusal(words: &str, out: &mut Output) {
    let shown = refusal_of(words, out).line(out.alloc, &mut out.bytes);
    out.note(shown);
}

fn refusal_of(words: &str, out: &mut Output) -> Refusal {
    let mut words = words.split_whitespace();
    Refusal {
        side: side_named(words.next().unwrap_or(""), out),
        place: out.read(words.next().unwrap_or("").parse()),
        reason: reason_named(words.next().unwrap_or(""), out),
        kept: kept_of(words.next(), words.next(), out),
    }
}

fn kept_of(first: Option<&str>, second: Option<&str>, out: &mut Output) -> Option<(u64, u64)> {
    match (first, second) {
        (Some(first), Some(second)) => Some((out.read(first.parse()), out.read(second.parse()))),
        _ => None,
    }
}

/// Appends the number of a speed's byte in USB/IP, and its byte in usbredir again.
pub fn push_speed(byte: &str, out: &mut Output) {
    let speed = Speed::from_redir(out.read(byte.parse()));
    out.line(
        "speed",
        &[i64::from(speed.usbip()), i64::from(speed.to_redir())],
    );
}

/// Appends the error number of a status, and its byte again.
pub fn push_status(byte: &str, out: &mut Output) {
    let status = UsbStatus::from_byte(out.read(byte.parse()));
    out.line(
        "status",
        &[i64::from(status.errno()), i64::from(status.to_byte())],
    );
}

/// The name of what an endpoint's transfers are.
pub fn kind_name(kind: EpKind) -> &'static str {
    match kind {
        EpKind::Control => "control",
        EpKind::Iso => "isochronous",
        EpKind::Bulk => "bulk",
        EpKind::Interrupt => "interrupt",
        EpKind::Invalid => "none",
    }
}

/// Appends the name of the kind that a byte of an ep_info tells.
pub fn push_kind(byte: &str, out: &mut Output) {
    let kind = EpKind::from_byte(out.read(byte.parse()));
    out.line(kind_name(kind), &[]);
}

/// Appends an endpoint's place among 32 and its direction, its byte and its kind in a table without endpoints, and
/// whether it is endpoint 0; of a byte that is no address, the direction that it has all the same.
pub fn push_address(byte: &str, out: &mut Output) {
    let byte = out.read(u8::from_str_radix(byte, 16));
    match EpAddr::new(byte) {
        Some(ep) => push_ep(ep, out),
        None if is_in_endpoint(byte) => out.text("in, no address\n"),
        None => out.text("out, no address\n"),
    }
}

fn push_ep(ep: EpAddr, out: &mut Output) {
    out.number(
        "",
        ep.index() as u64,
        if ep.is_in() { " in " } else { " out " },
    );
    out.hex(&[ep.byte()]);
    out.text(" ");
    out.text(kind_name(EpTable::none().row(ep).kind));
    if ep.is_control() {
        out.text(", endpoint 0");
    }
    out.text("\n");
}

fn setup_of(bytes: &[u8], out: &mut Output) -> Setup {
    if bytes.len() != 8 {
        out.refuse();
    }
    Setup::read(bytes.try_into().unwrap_or([0; 8]))
}

/// Appends the fields of a setup, the bytes that spell it, and that of endpoint 0 in its direction.
pub fn push_setup(bytes: &[u8], out: &mut Output) {
    let setup = setup_of(bytes, out);
    let numbers = [
        i64::from(setup.kind),
        i64::from(setup.request),
        i64::from(setup.value),
        i64::from(setup.index),
        i64::from(setup.length),
    ];
    out.line("setup", &numbers);
    out.hex(&setup.spell());
    out.text(" ");
    out.hex(&[EpAddr::control(setup.is_in()).byte()]);
    out.text("\n");
}

/// Appends the route of a setup, whether it is a change, and which of the interfaces 1 and 2 it touches.
pub fn push_route(bytes: &[u8], out: &mut Output) {
    let route = route_of(&setup_of(bytes, out));
    push_route_name(&route, out);
    if is_change(&route) {
        out.text(", a change");
    }
    for (interface, name) in [(1, " of 1"), (2, " of 2")] {
        if touches(&route, interface) {
            out.text(name);
        }
    }
    out.text("\n");
}

fn push_route_name(route: &Route, out: &mut Output) {
    match *route {
        Route::Local => out.text("Local"),
        Route::SetConfig(number) => out.number("SetConfig ", u64::from(number), ""),
        Route::GetConfig => out.text("GetConfig"),
        Route::SetAlt { interface, alt } => {
            out.text("SetAlt");
            out.numbers(&[i64::from(interface), i64::from(alt)]);
        }
        Route::GetAlt(interface) => out.number("GetAlt ", u64::from(interface), ""),
        Route::Reset => out.text("Reset"),
        Route::Plain => out.text("Plain"),
        Route::Bad => out.text("Bad"),
    }
}

/// Appends the capabilities that the gateway announces and that are among these, which are given in hexadecimal.
pub fn push_agreed(digits: &str, out: &mut Output) {
    let agreed = Caps::ANNOUNCED.agreed(caps_of(digits, out));
    out.text("agreed");
    for number in 0..32_u32 {
        if agreed.contains(Caps(1 << number)) {
            out.number(" ", u64::from(number), "");
        }
    }
    out.text("\n");
}
