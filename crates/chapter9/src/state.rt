//! What changes in a device by its requests on endpoint 0.

ghost use Rattle.std.specs.Prelude.{◌≡◌, ◌<◌, ◌^◌};
ghost use Rattle.usb_base.specs.declared.endpoint.TheConstants.{ENDPOINTS};
ghost use Rattle.chapter9.specs.State.{cleared, halted_bit, is_configured, is_halted, unconfigured, with_halt};

use usb_base::EpAddr;

/// The state of a device with one configuration and one interface (USB 2.0, 9.1).
#[derive(Clone, Copy, PartialEq, Eq)]
pub struct DevState {
    /// The configuration that is set, 0 before one is (9.4.7).
    pub configuration: u8,
    /// The alternate setting of interface 0 (9.4.10).
    pub alt: u8,
    /// Which endpoints are halted (9.4.5): bit i is that of the endpoint with index i.
    pub halted: u32,
}

impl DevState {
    /// The state of a device that has just been reset.
    pub fn unconfigured() -> DevState
        ensures { result ≡ unconfigured }
    {
        DevState {
            configuration: 0,
            alt: 0,
            halted: 0,
        }
    }

    /// Whether a configuration is set.
    pub fn is_configured(&self) -> bool
        ensures { result ≡ is_configured self.now }
    {
        self.configuration != 0
    }

    /// Whether an endpoint is halted.
    pub fn is_halted(&self, ep: EpAddr) -> bool
        ensures { result ≡ is_halted self.now ep }
    {
        self.halted_bit(ep) == 1
    }

    /// The endpoint's halt, as bit 0 of its status (9.4.5).
    pub fn halted_bit(&self, ep: EpAddr) -> u8
        ensures { result ≡ halted_bit self.now ep }
    {
        ((self.halted >> ep.index()) & 1) as u8
    }

    /// Halts an endpoint.
    pub fn halt(&mut self, ep: EpAddr)
        ensures { self.new ≡ with_halt self.old ep }
    {
        self.halted |= bit(ep.index());
    }

    /// Takes an endpoint's halt away.
    pub fn clear_halt(&mut self, ep: EpAddr)
        ensures { self.new ≡ cleared self.old ep }
    {
        self.halted &= !bit(ep.index());
    }
}

fn bit(index: usize) -> u32
    requires { index < ENDPOINTS }
    ensures { result ≡ 2 ^ index }
{
    1 << index
}
