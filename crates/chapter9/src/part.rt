//! What the descriptors of a configuration say (USB 2.0, 9.6).

use usb_base::{EpAddr, EpKind, List};

/// One descriptor of a configuration.
#[derive(Clone, Copy)]
pub enum Part {
    /// The configuration's own descriptor (9.6.3): the value that selects it, and how many interfaces it has.
    Config {
        value: u8,
        interfaces: u8,
    },
    /// An alternate setting of an interface (9.6.5). The endpoints after it are its own.
    Interface {
        number: u8,
        alt: u8,
        class: u8,
        subclass: u8,
        protocol: u8,
    },
    /// An endpoint (9.6.6): `max_packet` is its largest packet in bytes, without the number of packets in a
    /// microframe, and `interval` its polling interval as the descriptor has it.
    Endpoint {
        ep: EpAddr,
        kind: EpKind,
        max_packet: u16,
        interval: u8,
    },
    /// A descriptor of another type, as those of a class are.
    Other {
        kind: u8,
    },
}

/// The descriptors of a configuration, in order.
pub type Parts = List<Part>;
