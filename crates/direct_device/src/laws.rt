//! Laws of the device attached directly, as contracts of functions that do nothing.

ghost use Rattle.model_device.specs.Device.{meaning_of};
ghost use Rattle.model_device.specs.Keyboard.{keyboard};
ghost use Rattle.model_device.specs.Loopback.{loopback};
ghost use Rattle.model_device.specs.Tone.{tone};
ghost use Rattle.disk_gadget.specs.DiskStep.{disk};
ghost use Rattle.direct_device.specs.Performed.{ItemsFit, NeverCancels};

use model_device::Gadget;

/// A law of legal traces alone, whatever device they are of: no submit is performed twice, nor, in a session, after its
/// end; none is whose unlink takes it back at once or that the device's loss ends. Where the device never answers
/// cancelled, one whose unlink is answered -104 wasn't performed either, and one that the host was asked for by an id
/// and that is answered 0 was performed once.
pub fn performed_at_most_once<G: Gadget>()
    ensures { ItemsFit G.meaning }
{}

/// A law: none of the four devices answers cancelled by itself.
pub fn gadgets_never_cancel()
    ensures keyboard { NeverCancels (meaning_of keyboard) }
    ensures loopback { NeverCancels (meaning_of loopback) }
    ensures tone { NeverCancels (meaning_of tone) }
    ensures disk { NeverCancels disk }
{}
