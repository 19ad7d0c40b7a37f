//! How many bytes a packet awaits of which less than all is there.

ghost use Rattle.std.specs.Prelude.{◌≡◌, ◌≤◌, false, length};
ghost use Rattle.packet_stream.specs.Format.{Short, reading};
ghost use Rattle.packet_stream.specs.Awaited.{IsAwaited, StaysShort, awaited};
ghost use Rattle.redir_data.specs.Carrying.{carrying};
ghost use Rattle.redir_data.specs.Packets.{begins_plain, redir_packets};

use redir_wire::{DataKind, FIRST_DATA, RedirState, Way, header_size, next_control};
use usb_base::le_u32_at;

/// How many bytes are awaited where less than a packet is there that goes this way: the least number at which a check
/// has its bytes, or the packet with the fields that are there is whole. It takes no memory.
pub fn next_redir(state: RedirState, way: Way, bytes: &[u8]) -> usize
    requires { reading (redir_packets state way) bytes.now ≡ Short }
    ensures least { IsAwaited (redir_packets state way) bytes.now result }
    ensures quiet { StaysShort (redir_packets state way) bytes.now result }
{
    if bytes.len() < 4 {
        return 4;
    }
    if le_u32_at(bytes, 0) < FIRST_DATA {
        next_control(state, way, bytes)
    } else {
        next_data(state, way, bytes)
    }
}

fn next_data(state: RedirState, way: Way, bytes: &[u8]) -> usize
    requires short { reading (carrying state way) bytes.now ≡ Short }
    requires there { 4 ≤ length bytes.now }
    requires carrying { begins_plain bytes.now ≡ false }
    ensures { result ≡ awaited (carrying state way) bytes.now }
{
    if bytes.len() < 8 {
        return 8;
    }
    let Some(kind) = DataKind::numbered(le_u32_at(bytes, 0)) else {
        unreachable!()
    };
    let size = header_size(state);
    let fields = size + kind.row().fixed(state.caps) as usize;
    if bytes.len() < fields {
        return fields;
    }
    size + le_u32_at(bytes, 4) as usize
}
