//! Endpoints: their addresses, their kinds, and the table of a device's 32 (USB 2.0, 9.6.6).

ghost use Rattle.std.specs.Prelude.{◌≡◌, ◌<◌, ◌↔◌, IsSome, IfSome, if◌then◌else◌};
ghost use Rattle.usb_base.specs.Endpoint.{IsEndpoint, byte_of_kind, endpoint_index, in_endpoints, is_control, is_in_endpoint, kind_of_byte, no_endpoints, out_endpoints, row_of};
ghost use Rattle.usb_base.specs.declared.endpoint.TheConstants.{ENDPOINTS};

use std::marker::Model;

/// How many endpoints a device's table has places for.
pub const ENDPOINTS: usize = 32;

/// A law: the number that definitions name is this.
pub fn endpoint_count()
    ensures { ENDPOINTS ≡ 32 }
{}

/// The address of an endpoint: the number in bits 0 to 3, and in bit 7 whether it is an IN endpoint, from
/// the device to the host. Contracts see it as its byte.
#[derive(Clone, Copy)]
pub struct EpAddr {
    byte: u8,
}

impl Model for EpAddr {
    ghost use Rattle.std.specs.Prelude.{ℕ};
    ghost use Rattle.usb_base.specs.Endpoint.{IsEndpoint};

    ghost Value = { ℕ };

    ghost view = { λ ep. ep.byte };

    ghost invariant = { λ ep. IsEndpoint ep.byte };

    ghost inverse = { λ n. record { byte = n } };
}

impl EpAddr {
    /// The address of this byte, if its bits 4 to 6 are all 0.
    pub fn new(byte: u8) -> Option<EpAddr>
        ensures is_some { IsSome result ↔ IsEndpoint byte }
        ensures byte { IfSome result (λ ep. ep ≡ byte) }
    {
        if byte % 0x80 < 0x10 {
            Some(EpAddr { byte })
        } else {
            None
        }
    }

    /// Endpoint 0 in this direction.
    pub fn control(is_in: bool) -> EpAddr
        ensures { result ≡ (if is_in then 128 else 0) }
    {
        of(if is_in { 0x80 } else { 0x00 })
    }

    /// All OUT endpoints in order, and endpoint 0 before them.
    pub fn all_out() -> [EpAddr; 16]
        ensures { result ≡ out_endpoints }
    {
        [
            of(0x00),
            of(0x01),
            of(0x02),
            of(0x03),
            of(0x04),
            of(0x05),
            of(0x06),
            of(0x07),
            of(0x08),
            of(0x09),
            of(0x0A),
            of(0x0B),
            of(0x0C),
            of(0x0D),
            of(0x0E),
            of(0x0F),
        ]
    }

    /// All IN endpoints but 0, in order.
    pub fn all_in() -> [EpAddr; 15]
        ensures { result ≡ in_endpoints }
    {
        [
            of(0x81),
            of(0x82),
            of(0x83),
            of(0x84),
            of(0x85),
            of(0x86),
            of(0x87),
            of(0x88),
            of(0x89),
            of(0x8A),
            of(0x8B),
            of(0x8C),
            of(0x8D),
            of(0x8E),
            of(0x8F),
        ]
    }

    /// Its byte, as descriptors and packets have it.
    pub fn byte(self) -> u8
        ensures value { result ≡ self }
        ensures in_range { IsEndpoint result }
    {
        self.byte
    }

    /// Its place in a table of endpoints: n for OUT endpoint n, and 16 + n for IN endpoint n.
    pub fn index(self) -> usize
        ensures value { result ≡ endpoint_index self }
        ensures in_range { result < ENDPOINTS }
    {
        if self.is_in() {
            (self.byte - 0x70) as usize
        } else {
            self.byte as usize
        }
    }

    /// Whether data go from the device to the host.
    pub fn is_in(self) -> bool
        ensures { result ≡ is_in_endpoint self }
    {
        is_in_endpoint(self.byte)
    }

    /// Whether it is endpoint 0, in either direction.
    pub fn is_control(self) -> bool
        ensures { result ≡ is_control self }
    {
        self.byte % 0x80 == 0
    }
}

/// Whether data go from the device to the host at an endpoint of this byte, which may be no address.
pub fn is_in_endpoint(byte: u8) -> bool
    ensures { result ≡ is_in_endpoint byte }
{
    byte >= 0x80
}

/// The address of a byte that is one.
fn of(byte: u8) -> EpAddr
    requires { IsEndpoint byte }
    ensures { result ≡ byte }
{
    EpAddr { byte }
}

/// What an endpoint's transfers are (USB 2.0, 5.4).
#[derive(Clone, Copy, PartialEq, Eq)]
pub enum EpKind {
    Control,
    Iso,
    Bulk,
    Interrupt,
    /// There is no such endpoint.
    Invalid,
}

impl EpKind {
    /// The kind that a usbredir ep_info tells: 0 control, 1 isochronous, 2 bulk, 3 interrupt, any other none.
    pub fn from_byte(byte: u8) -> EpKind
        ensures { result ≡ kind_of_byte byte }
    {
        match byte {
            0 => EpKind::Control,
            1 => EpKind::Iso,
            2 => EpKind::Bulk,
            3 => EpKind::Interrupt,
            _ => EpKind::Invalid,
        }
    }

    /// The byte that tells it in a usbredir ep_info: 255 where there is no such endpoint.
    pub fn to_byte(self) -> u8
        ensures byte { result ≡ byte_of_kind self }
        ensures again { kind_of_byte result ≡ self }
    {
        match self {
            EpKind::Control => 0,
            EpKind::Iso => 1,
            EpKind::Bulk => 2,
            EpKind::Interrupt => 3,
            EpKind::Invalid => 255,
        }
    }
}

/// What is known of one endpoint.
#[derive(Clone, Copy, PartialEq, Eq)]
pub struct EpRow {
    pub kind: EpKind,
    /// The polling interval, as the endpoint's descriptor has it.
    pub interval: u8,
    /// The number of the interface that it belongs to.
    pub interface: u8,
    /// The largest packet, in bytes.
    pub max_packet: u16,
}

/// A device's endpoints by their index: places 0 to 15 are those to the device, 16 to 31 those from it.
#[derive(Clone, Copy)]
pub struct EpTable {
    pub rows: [EpRow; ENDPOINTS],
}

impl EpTable {
    /// The table with no endpoint.
    pub fn none() -> EpTable
        ensures { result ≡ no_endpoints }
    {
        EpTable {
            rows: [EpRow {
                kind: EpKind::Invalid,
                interval: 0,
                interface: 0,
                max_packet: 0,
            }; ENDPOINTS],
        }
    }

    /// The row of an endpoint.
    pub fn row(&self, ep: EpAddr) -> EpRow
        ensures { result ≡ row_of self.now ep }
    {
        self.rows[ep.index()]
    }
}
