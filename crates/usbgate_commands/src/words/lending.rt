//! What a modelled host is asked.

use std::marker::Model;
use tape_run::Device;

/// Which device is lent, where the guest's door is, and when to end.
#[derive(Drop)]
pub struct Lending<'a> {
    /// The device that is lent.
    pub device: Device,
    /// The address of the guest's door.
    pub listen: &'a str,
    /// After how many rounds in a row in which nothing comes it ends.
    pub idle: u32,
}

impl<'a> Model for Lending<'a> {
    ghost use Rattle.usbgate_commands.specs.words.Lending.{AskedLent};

    ghost Value = { AskedLent };

    ghost view = { λ lending. record { device = lending.device; listen = lending.listen.now; idle = lending.idle } };
}
