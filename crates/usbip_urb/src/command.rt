//! A client's URB requests: a submit or an unlink, and no answer.

ghost use Rattle.std.specs.Prelude.{◌≡◌};
ghost use Rattle.usbip_urb.specs.declared.packet.UrbPacket.TheVariants.{Submit as SubmitPacket, Unlink as UnlinkPacket};
ghost use Rattle.usbip_urb.specs.Commands.{packet_of};

use crate::packet::{Submit, Unlink, UrbPacket};
use std::marker::Model;

/// Which request it is, by its command: `USBIP_CMD_SUBMIT` or `USBIP_CMD_UNLINK`.
#[derive(Drop)]
pub enum UrbCommand {
    Submit(Submit),
    Unlink(Unlink),
}

/// A submit or an unlink. It means a `UrbPacket`, but can be no answer.
#[derive(Drop)]
pub struct UrbRequest {
    command: UrbCommand,
}

impl Model for UrbRequest {
    ghost use Rattle.usbip_urb.specs.declared.packet.UrbPacket.{UrbPacket};
    ghost use Rattle.usbip_urb.specs.Commands.{packet_of};

    ghost Value = { UrbPacket };

    ghost view = { λ request. packet_of request.command };
}

impl UrbRequest {
    /// Asks for a transfer.
    pub(crate) fn submit(submit: Submit) -> UrbRequest
        ensures { result ≡ SubmitPacket submit }
    {
        UrbRequest {
            command: UrbCommand::Submit(submit),
        }
    }

    /// Asks to take back a submit.
    pub(crate) fn unlink(unlink: Unlink) -> UrbRequest
        ensures { result ≡ UnlinkPacket unlink }
    {
        UrbRequest {
            command: UrbCommand::Unlink(unlink),
        }
    }

    /// Which request it is.
    pub fn command(&self) -> &UrbCommand
        ensures { self.now ≡ packet_of result.now }
    {
        &self.command
    }

    /// Which request it is, to keep.
    pub fn into_command(self) -> UrbCommand
        ensures { self ≡ packet_of result }
    {
        self.command
    }

    /// The same as a packet.
    pub(crate) fn into_packet(self) -> UrbPacket
        ensures { result ≡ self }
    {
        match self.command {
            UrbCommand::Submit(submit) => UrbPacket::Submit(submit),
            UrbCommand::Unlink(unlink) => UrbPacket::Unlink(unlink),
        }
    }
}
