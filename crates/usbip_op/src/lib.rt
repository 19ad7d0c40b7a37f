//! The list and import packets of USB/IP ("usbip_protocol", Linux kernel documentation, version 1.1.1) as
//! bytes. All numbers are big-endian.
#![tactic(auto)]

mod check;
mod code;
mod exported;
mod next;
mod packet;
mod read;
mod reply;
mod request;
mod write;

pub use code::{
    BUS_ID_SIZE, DEVICE_SIZE, HEADER_SIZE, INTERFACE_SIZE, LIST_HEADER_SIZE, MAX_DEVICES,
    OP_REP_DEVLIST, OP_REP_IMPORT, OP_REQ_DEVLIST, OP_REQ_IMPORT, PATH_SIZE, ST_NA, ST_OK,
    USBIP_VERSION, protocol_numbers,
};
pub use exported::{BUS_ID, BUS_NUMBER, DEVICE_NUMBER};
pub use next::next_op;
pub use packet::{
    DeviceRow, IfaceRow, IfaceRows, Listed, ListedRows, OpError, OpPacket, OpRead, OpWay,
};
pub use read::{packets_sound, read_op, read_request};
pub use request::OpRequest;
pub use write::{write_op, written_again};
