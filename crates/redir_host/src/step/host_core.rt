//! A usbredir host over a stream of bytes each way: what its guest sends comes in pieces.

ghost use Rattle.std.specs.Prelude.{◌≡◌, ◌++◌, [], not, IfOk, OnOk, OnErr, IsErr};
ghost use Rattle.redir_host.specs.step.Acts.{Piece, Perform, Offer, Unplug};
ghost use Rattle.redir_host.specs.device.Offering.{told_offered};
ghost use Rattle.redir_host.specs.write.Output.{host_out};
ghost use Rattle.redir_host.specs.device.Performing.{told_performed};
ghost use Rattle.redir_host.specs.step.Stands.{Does, HostHasFailed, HostStands, StopsIn, TakesPiece, TellsOf};

use crate::step::inner::Inner;
use crate::write::hello::write_hello;
use crate::write::note::{HostNotes, Offered, Performed};
use model_device::Gadget;
use std::alloc::Global;
use std::marker::Model;
use usb_base::{Bytes, EpAddr, Memory};

/// The host of a device, and its guest's stream. Once memory has run out in a call, every later one answers `Memory`
/// and changes nothing.
#[derive(Drop)]
pub struct HostCore<G: Gadget> {
    inner: Inner<G>,
}

impl<G: Gadget> Model for HostCore<G> {
    ghost use Rattle.redir_host.specs.state.Kept.{HostKept};
    ghost use Rattle.redir_host.specs.step.Stands.{IsReady};
    ghost use Rattle.redir_host.specs.inner.Views.{kept_of};

    ghost Value = { HostKept G };

    ghost view = { λ core. kept_of core.inner };

    ghost invariant = { λ core. IsReady G.meaning (kept_of core.inner) };
}

impl<G: Gadget> HostCore<G> {
    /// The host of a device that was just plugged in. It appends its hello.
    pub fn make(alloc: Global, gadget: G, out: &mut Bytes) -> Result<HostCore<G>, Memory>
        ensures made { IfOk result (λ core. HostStands G.meaning gadget core []) }
        ensures sent { OnOk result (out.new ≡ out.old ++ host_out G.meaning gadget []) }
        ensures err { OnErr result (out.new ≡ out.old) }
    {
        write_hello(alloc, out)?;
        Ok(HostCore {
            inner: Inner::new(alloc, gadget),
        })
    }

    /// Takes the next piece of the guest's bytes: it appends what its packets send, and tells what they told. A wrong
    /// place is told once, and what comes behind it is dropped. For want of memory the packets before the one that met
    /// it are taken, and that one has sent nothing.
    pub fn take(&mut self, bytes: &[u8], out: &mut Bytes) -> Result<HostNotes, Memory>
        ensures takes { IfOk result (TakesPiece G.meaning bytes.now self.old self.new out.old out.new []) }
        ensures stops { OnErr result (StopsIn G.meaning (Piece bytes.now) self.old out.old out.new) }
        ensures fails { OnErr result (HostHasFailed self.new) }
        ensures failed { HostHasFailed self.old → IsErr result × (self.new ≡ self.old) × (out.new ≡ out.old) }
    {
        self.inner.works()?;
        let mut notes = HostNotes::new(self.inner.alloc);
        let taken = self.inner.take(bytes, out, &mut notes);
        self.inner.fail_on_err(taken)?;
        Ok(notes)
    }

    /// Performs the first request of an endpoint, where the device is ready for it, and answers it. For want of memory,
    /// which only a request that is performed takes, `out` stands.
    pub fn perform(&mut self, ep: EpAddr, out: &mut Bytes) -> Result<Performed, Memory>
        ensures told { IfOk result (TellsOf G.meaning self.old (λ host. told_performed G.meaning host ep)) }
        ensures does { OnOk result (Does G.meaning (Perform ep) self.old self.new out.old out.new) }
        ensures stops { OnErr result (StopsIn G.meaning (Perform ep) self.old out.old out.new) }
        ensures err { OnErr result (out.new ≡ out.old) }
        ensures fails { OnErr result (HostHasFailed self.new) }
        ensures failed { HostHasFailed self.old → IsErr result × (self.new ≡ self.old) }
    {
        self.inner.works()?;
        let before = out.len();
        let performed = self.inner.host.perform(self.inner.alloc, ep, out);
        let told = out.cut_on_err(before, performed);
        self.inner.fail_on_err(told)
    }

    /// Offers the guest what the device has for an endpoint whose stream runs. For want of memory, which only a packet
    /// takes, `out` stands.
    pub fn offer(&mut self, ep: EpAddr, out: &mut Bytes) -> Result<Offered, Memory>
        ensures told { IfOk result (TellsOf G.meaning self.old (λ host. told_offered G.meaning host ep)) }
        ensures does { OnOk result (Does G.meaning (Offer ep) self.old self.new out.old out.new) }
        ensures stops { OnErr result (StopsIn G.meaning (Offer ep) self.old out.old out.new) }
        ensures err { OnErr result (out.new ≡ out.old) }
        ensures fails { OnErr result (HostHasFailed self.new) }
        ensures failed { HostHasFailed self.old → IsErr result × (self.new ≡ self.old) }
    {
        self.inner.works()?;
        let told = self.inner.host.offer(self.inner.alloc, ep, out);
        self.inner.fail_on_err(told)
    }

    /// Takes the device away, and tells so where the guest has sent its hello; false where it was taken away before.
    /// For want of memory, which only that packet takes, `out` stands.
    pub fn unplug(&mut self, out: &mut Bytes) -> Result<bool, Memory>
        ensures told { IfOk result (TellsOf G.meaning self.old (λ host. not host.unplugged)) }
        ensures does { OnOk result (Does G.meaning Unplug self.old self.new out.old out.new) }
        ensures stops { OnErr result (StopsIn G.meaning Unplug self.old out.old out.new) }
        ensures err { OnErr result (out.new ≡ out.old) }
        ensures fails { OnErr result (HostHasFailed self.new) }
        ensures failed { HostHasFailed self.old → IsErr result × (self.new ≡ self.old) }
    {
        self.inner.works()?;
        let told = self.inner.host.unplug(out);
        self.inner.fail_on_err(told)
    }
}
