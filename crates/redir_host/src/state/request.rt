//! What a guest asks of the device, and how its answer is spelled.

use usb_base::{Setup, Transfer};

/// The packet by which a request came, with the fields of which its answer, or the change that it asks for, is made.
#[derive(Clone, Copy)]
pub enum Form {
    /// `usb_redir_control_packet`, with the fields of its setup.
    Control(Setup),
    /// `usb_redir_bulk_packet`.
    Bulk { stream: u32 },
    /// `usb_redir_interrupt_packet`.
    Interrupt,
    /// `usb_redir_set_configuration`.
    SetConfiguration { configuration: u8 },
    /// `usb_redir_get_configuration`.
    GetConfiguration,
    /// `usb_redir_set_alt_setting`.
    SetAlt { interface: u8, alt: u8 },
    /// `usb_redir_get_alt_setting`.
    GetAlt { interface: u8 },
}

/// A request that waits in the queue of its endpoint.
#[derive(Drop)]
pub struct Request {
    /// Of its packet. Nothing says that no two requests have one id.
    pub id: u64,
    pub form: Form,
    pub transfer: Transfer,
    /// The device is reset before it is performed.
    pub reset: bool,
}

/// What a packet that moves data asks.
#[derive(Drop)]
pub enum Asking {
    /// Nothing: it is of an endpoint that is used by a stream.
    Nothing,
    /// What can't be asked: it is answered at once.
    Refuses { form: Form, endpoint: u8 },
    /// A transfer of the device.
    Asks { form: Form, transfer: Transfer },
}
