//! How many bytes a packet awaits of which less than all is there.

ghost use Rattle.std.specs.Prelude.{◌≡◌};
ghost use Rattle.packet_stream.specs.Format.{Short, reading};
ghost use Rattle.packet_stream.specs.Awaited.{IsAwaited, StaysShort, awaited};
ghost use Rattle.redir_wire.specs.declared.packet.Way.{Way as AnyWay};
ghost use Rattle.redir_wire.specs.Plain.{plain};

use crate::header::header_size;
use crate::kind::INTERFACE_INFO;
use crate::packet::Way;
use crate::state::RedirState;
use usb_base::le_u32_at;

/// How many bytes are awaited where less than a packet that moves no data is there: the least number at which a check
/// has its bytes, or the packet with the fields that are there is whole. Where four bytes are there the type is below
/// 100; fewer may be those of any packet. It takes no memory.
pub fn next_control(state: RedirState, way: Way, bytes: &[u8]) -> usize
    requires { reading (plain state way) bytes.now ≡ Short }
    ensures least { IsAwaited (plain state way) bytes.now result }
    ensures quiet { StaysShort (plain state way) bytes.now result }
{
    next_plain(state, bytes)
}

fn next_plain(state: RedirState, bytes: &[u8]) -> usize
    ensures { (way : AnyWay) → result ≡ awaited (plain state way) bytes.now }
{
    if bytes.len() < 4 {
        return 4;
    }
    if bytes.len() < 8 {
        return 8;
    }
    let size = header_size(state);
    if le_u32_at(bytes, 0) == INTERFACE_INFO && bytes.len() < size + 4 {
        return size + 4;
    }
    size + le_u32_at(bytes, 4) as usize
}
