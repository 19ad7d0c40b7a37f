//! What a submit asks for.

ghost use Rattle.std.specs.Prelude.{◌≡◌, ◌≤◌, None};
ghost use Rattle.usbip_urb.specs.Ranges.{IsSubmit};
ghost use Rattle.gate_history.specs.client.Requests.{address, request_of};
ghost use Rattle.gate_history.specs.client.Carried.{IsRequest};
ghost use Rattle.gate_history.specs.write.Answers.{fails_if_short};
ghost use Rattle.gate_history.specs.write.Asked.{answered_transfer, asked_view};

use usb_base::{EpAddr, Setup, Transfer};
use usbip_urb::{Descs, IsoDesc, Submit, URB_SHORT_NOT_OK, USBIP_DIR_OUT};

/// A transfer, and what its answer has of the submit.
#[derive(Drop)]
pub struct Request {
    /// The submit's number, which its answer has.
    pub seqnum: u32,
    /// Whether data go from the device to the client, by the submit.
    pub is_in: bool,
    /// transfer_flags of the submit.
    pub flags: u32,
    /// number_of_packets of the submit, which its answer echoes.
    pub packets: u32,
    /// Its isochronous packets, in wire order.
    pub descs: Descs,
    pub transfer: Transfer,
}

impl Request {
    /// The endpoint of its transfer.
    pub fn ep(&self) -> EpAddr
        ensures { result ≡ self.now.transfer.ep }
    {
        self.transfer.ep
    }

    /// What a submit asks for. Its body and its descriptors are moved.
    pub fn of(submit: Submit) -> Request
        requires { IsSubmit submit }
        ensures value { result ≡ request_of submit }
        ensures whole { IsRequest result }
    {
        let Submit {
            head,
            flags,
            length,
            packets,
            setup,
            body,
            descs,
            ..
        } = submit;
        let is_in = head.direction != USBIP_DIR_OUT;
        let (ep, setup) = if head.ep == 0 {
            let setup = Setup::read(setup);
            (EpAddr::control(setup.is_in()), Some(setup))
        } else {
            (address(is_in, head.ep), None)
        };
        Request {
            seqnum: head.seqnum,
            is_in,
            flags,
            packets,
            descs,
            transfer: Transfer {
                ep,
                setup,
                wanted: length,
                body,
            },
        }
    }
}

/// The address of an endpoint by its direction and its number.
fn address(is_in: bool, number: u32) -> EpAddr
    requires { number ≤ 15 }
    ensures { result ≡ address is_in number }
{
    let number = number as u8;
    let byte = if is_in { number + 0x80 } else { number };
    EpAddr::new(byte).unwrap()
}

/// What the answer of a submit has of the submit.
#[derive(Clone, Copy)]
pub struct AnsweredSubmit<'a> {
    /// The submit's number.
    pub seqnum: u32,
    /// Whether data go from the device to the client.
    pub is_in: bool,
    /// transfer_flags of the submit.
    pub flags: u32,
    /// number_of_packets of the submit.
    pub packets: u32,
    /// How many bytes are asked for.
    pub wanted: u32,
    /// Its isochronous packets, in wire order.
    pub descs: &'a [IsoDesc],
}

impl<'a> AnsweredSubmit<'a> {
    /// Whether a read that gives fewer bytes than were asked for has failed.
    pub fn fails_if_short(&self) -> bool
        ensures { result ≡ fails_if_short self.now.flags }
    {
        self.flags & URB_SHORT_NOT_OK != 0
    }
}

impl Request {
    /// What its answer has of it.
    pub fn asked(&self) -> AnsweredSubmit<'_>
        ensures { asked_view result ≡ record self.now { transfer = answered_transfer self.now.transfer.wanted } }
    {
        AnsweredSubmit {
            seqnum: self.seqnum,
            is_in: self.is_in,
            flags: self.flags,
            packets: self.packets,
            wanted: self.transfer.wanted,
            descs: self.descs.as_slice(),
        }
    }
}
