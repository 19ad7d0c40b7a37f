//! Laws of the packets and of their numbers, as contracts of functions that do nothing.

ghost use Rattle.std.specs.Prelude.{◌≡◌, ◌+◌, ◌^◌};
ghost use Rattle.redir_wire.specs.Past.{HeadersSound, ReadByParts};
ghost use Rattle.redir_wire.specs.Written.{PlainSound, ReadAgain};

use crate::header::MAX_LENGTH;
use crate::kind::{FIRST_DATA, HELLO, INTERFACE_INFO};
use crate::packet::{Caps, INTERFACE_CELLS, MAX_HELLO_WORDS, MAX_INTERFACES};
use usb_base::LONGEST_HOST_PACKET;

/// What is read as a header is spelled so, and what is spelled so is read.
pub fn headers_sound()
    ensures { HeadersSound }
{}

/// What is read is spelled so, and what is spelled so is read.
pub fn plain_sound()
    ensures { PlainSound }
{}

/// A packet is read by its header, and then by what is behind it.
pub fn read_by_parts()
    ensures { ReadByParts }
{}

/// A packet that was written is read again, whatever comes after it.
pub fn read_again()
    ensures { ReadAgain }
{}

/// The capabilities are the protocol's bits, five of which the gateway announces, and the limits and the numbers of
/// types that definitions name are these.
pub fn protocol_numbers()
    ensures version { Caps.CONNECT_VERSION.0 ≡ 2 ^ 1 }
    ensures acknowledged { Caps.DISCONNECT_ACK.0 ≡ 2 ^ 3 }
    ensures sizes { Caps.MAX_PACKET_SIZE.0 ≡ 2 ^ 4 }
    ensures ids { Caps.WIDE_IDS.0 ≡ 2 ^ 5 }
    ensures lengths { Caps.WIDE_BULK_LENGTH.0 ≡ 2 ^ 6 }
    ensures announced { Caps.ANNOUNCED.0 ≡ 2 ^ 1 + 2 ^ 3 + 2 ^ 4 + 2 ^ 5 + 2 ^ 6 }
    ensures types { (HELLO ≡ 0) × (INTERFACE_INFO ≡ 4) × (FIRST_DATA ≡ 100) }
    ensures words { MAX_HELLO_WORDS ≡ 32 }
    ensures tables { (MAX_INTERFACES ≡ 32) × (INTERFACE_CELLS ≡ 32) }
    ensures longest { (MAX_LENGTH ≡ 16777216 + 64) × (LONGEST_HOST_PACKET ≡ 16 + MAX_LENGTH) }
{}
