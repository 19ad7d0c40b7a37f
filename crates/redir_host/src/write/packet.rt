//! Writes packets to the guest.

ghost use Rattle.std.specs.Prelude.{◌≡◌, ◌++◌, OnOk, OnErr};
ghost use Rattle.redir_data.specs.Sent.{sent_packet_bytes};
ghost use Rattle.redir_host.specs.state.Sound.{CanTell};

use redir_data::{RedirPacket, write_data};
use redir_wire::{Caps, Way, write_control};
use usb_base::{Bytes, Memory};

/// Appends a packet with this id, as the guest reads it with these capabilities. For want of memory `out` stands.
pub fn write(packet: &RedirPacket, id: u64, caps: Caps, out: &mut Bytes) -> Result<(), Memory>
    requires { CanTell caps id packet.now }
    ensures ok { OnOk result (out.new ≡ out.old ++ sent_packet_bytes caps (id, packet.now)) }
    ensures err { OnErr result (out.new ≡ out.old) }
{
    match packet {
        RedirPacket::Plain(control) => write_control(control, id, caps, out),
        RedirPacket::Carrying(data) => write_data(data, id, Way::ToGuest, caps, out),
    }
}
