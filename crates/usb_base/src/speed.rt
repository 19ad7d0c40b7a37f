//! Speeds of a device.

ghost use Rattle.std.specs.Prelude.{◌≡◌};
ghost use Rattle.usb_base.specs.Speed.{speed_of, redir_speed, usbip_speed};

/// How fast a device is.
#[derive(Clone, Copy)]
pub enum Speed {
    Unknown,
    Low,
    Full,
    High,
    Super,
}

impl Speed {
    /// The speed that a usbredir device_connect tells: 0 low, 1 full, 2 high, 3 super, any other unknown.
    pub fn from_redir(byte: u8) -> Speed
        ensures { result ≡ speed_of byte }
    {
        match byte {
            0 => Speed::Low,
            1 => Speed::Full,
            2 => Speed::High,
            3 => Speed::Super,
            _ => Speed::Unknown,
        }
    }

    /// The byte that a usbredir device_connect has for it.
    pub fn to_redir(self) -> u8
        ensures { result ≡ redir_speed self }
    {
        match self {
            Speed::Unknown => 255,
            Speed::Low => 0,
            Speed::Full => 1,
            Speed::High => 2,
            Speed::Super => 3,
        }
    }

    /// The number that USB/IP has for it, that of Linux's `usb_device_speed`.
    pub fn usbip(self) -> u32
        ensures { result ≡ usbip_speed self }
    {
        match self {
            Speed::Unknown => 0,
            Speed::Low => 1,
            Speed::Full => 2,
            Speed::High => 3,
            Speed::Super => 5,
        }
    }
}
