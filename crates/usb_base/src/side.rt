//! The two sides of the gateway.

ghost use Rattle.std.specs.Prelude.{◌≡◌};
ghost use Rattle.usb_base.specs.Refusal.{side_name};

/// A side of the gateway: the USB/IP client, or the usbredir host.
#[derive(Clone, Copy, PartialEq, Eq)]
pub enum Side {
    Client,
    Host,
}

impl Side {
    /// The side's name in printed lines, in ASCII.
    pub fn name(self) -> &'static str
        ensures { result.now ≡ side_name self }
    {
        match self {
            Side::Client => "client",
            Side::Host => "host",
        }
    }
}
