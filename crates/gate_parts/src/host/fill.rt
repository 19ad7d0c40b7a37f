//! The requests that the packets of their stream fill: their answers first, and then they go.

ghost use Rattle.std.specs.Prelude.{◌≡◌, ◌+◌, ◌<◌, ◌≤◌, length, OnOk, OnErr, IfOk};
ghost use Rattle.std.specs.List.{AllByRecursion};
ghost use Rattle.usbip_urb.specs.declared.code.TheConstants.{MAX_LIVE};
ghost use Rattle.stream_buffers.specs.declared.up.TheConstants.{MAX_HELD};
ghost use Rattle.unlink_race.specs.Searches.{waits_for};
ghost use Rattle.redir_wire.specs.declared.packet.Caps.{Caps};
ghost use Rattle.gate_parts.specs.state.Rows.{IsFine};
ghost use Rattle.gate_parts.specs.host.Fill.{up_fill, up_bytes, filled_notes, HasFilled, without_firsts};
ghost use Rattle.gate_parts.specs.write.Outputs.{with_answers, HasSome};

use crate::host::filling::write_filling;
use crate::write::outputs::Outputs;
use gate_history::Note;
use std::alloc::Global;
use stream_buffers::Up;
use unlink_race::Lives;
use usb_base::{EpAddr, Memory};

/// How many of the requests that wait for a stream its packets fill, and how many packets these take.
#[derive(Clone, Copy)]
pub struct Filled {
    pub requests: usize,
    pub packets: usize,
}

impl Filled {
    /// One request more, with so many packets.
    fn and(self, packets: usize) -> Filled
        requires requests { self.requests < MAX_LIVE }
        requires packets { self.packets + packets ≤ MAX_HELD }
        ensures { result ≡ record { requests = self.requests + 1; packets = self.packets + packets } }
    {
        Filled {
            requests: self.requests + 1,
            packets: self.packets + packets,
        }
    }
}

/// Appends the answers of the requests that the packets of their endpoint's stream fill, the earliest first, and tells
/// of each. It gives how many these are; requests and packets stay. Where they fill none it takes no memory.
pub fn write_fillings(
    alloc: Global,
    lives: &Lives,
    ep: EpAddr,
    up: &mut Up,
    out: &mut Outputs,
) -> Result<Filled, Memory>
    requires { (caps : Caps) × AllByRecursion (IsFine caps) lives.now.live }
    ensures same { up.new ≡ up.old }
    ensures filled { IfOk result (HasFilled ep up.old lives.now.live) }
    ensures sent { OnOk result (out.new ≡ with_answers out.old (up_bytes ep up.old lives.now.live) (filled_notes (up_fill ep up.old lives.now.live))) }
    ensures err { OnErr result (HasSome out.old out.new) }
    ensures wants { OnErr result (0 < length (up_fill ep up.old lives.now.live).fillings) }
{
    let mut filled = Filled {
        requests: 0,
        packets: 0,
    };
    let held = up.len();
    for live in lives.waiting(ep) {
        if filled.packets == held {
            return Ok(filled);
        }
        let Some(taken) = write_filling(alloc, live, up, filled.packets, &mut out.to_client)? else {
            return Ok(filled);
        };
        out.notes.push(Note::Answered {
            seqnum: live.seqnum,
        })?;
        filled = filled.and(taken);
    }
    Ok(filled)
}

/// The first so many requests that wait for an endpoint's stream go.
pub fn finish_fronts(lives: &mut Lives, ep: EpAddr, count: usize)
    ensures { lives.new ≡ record lives.old { live = without_firsts count (waits_for ep) lives.old.live } }
{
    for _ in 0..count {
        lives.finish_front(ep);
    }
}
