//! The URB packets of USB/IP ("usbip_protocol", Linux kernel documentation, version 1.1.1) as bytes:
//! submits, unlinks and their answers. All numbers are big-endian.
#![tactic(auto)]

mod answer;
mod buffer;
mod check;
mod client;
mod code;
mod command;
mod field;
mod next;
mod packet;
mod payload;
mod request;
mod write;

pub use answer::{answers_sound, read_ret, read_ret_again, ret_seqnum};
pub use buffer::{laid, part, total};
pub use client::{
    ClientFormat, ClientPacket, client_packets_sound, read_client, read_client_again,
};
pub use code::{
    DESC_SIZE, EXPORTED_DEVID, HEAD_SIZE, MAX_ENDPOINT, MAX_LIVE, MAX_PACKET_LENGTH, NO_PACKETS,
    URB_SHORT_NOT_OK, USBIP_CMD_SUBMIT, USBIP_CMD_UNLINK, USBIP_DIR_IN, USBIP_DIR_OUT,
    USBIP_RET_SUBMIT, USBIP_RET_UNLINK, protocol_numbers,
};
pub use command::{UrbCommand, UrbRequest};
pub use next::{next_client, next_urb};
pub use packet::{
    Descs, Head, IsoDesc, RetSubmit, RetUnlink, Submit, Unlink, UrbError, UrbPacket, UrbRead,
};
pub use request::{read_urb, read_urb_again, requests_sound};
pub use write::{push_desc, push_ret_fields, write_ret_submit, write_urb};
