//! The modelled devices.

ghost use Rattle.std.specs.Prelude.{◌≡◌};
ghost use Rattle.tape_run.specs.model.Device.{device_of};

/// How many blocks of 512 bytes a disk has.
pub const BLOCKS: u32 = 64;

/// The modelled devices.
#[derive(Clone, Copy, PartialEq, Eq)]
pub enum Device {
    /// `keyboard`: an interrupt endpoint.
    Keyboard,
    /// `loop`: a bulk endpoint each way.
    Loopback,
    /// `tone`: an isochronous endpoint.
    Tone,
    /// `disk`: mass storage of `BLOCKS` blocks.
    Disk,
}

impl Device {
    /// The device with this name.
    pub fn named(name: &str) -> Option<Device>
        ensures { result ≡ device_of name.now }
    {
        match name {
            "keyboard" => Some(Device::Keyboard),
            "loop" => Some(Device::Loopback),
            "tone" => Some(Device::Tone),
            "disk" => Some(Device::Disk),
            _ => None,
        }
    }
}
