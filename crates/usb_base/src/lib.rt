//! What every crate of the gateway speaks of: lists of bytes, the two sides, refusals with their reasons, and
//! USB's own words: setups and their requests, endpoints, statuses and transfers.
#![tactic(auto)]

mod block;
mod boxed;
mod digits;
mod endpoint;
pub mod errno;
mod incoming;
mod limits;
mod list;
mod memory;
mod number;
mod packet_bytes;
mod reason;
mod receive_buffer;
mod refusal;
pub mod request;
mod setup;
mod side;
mod speed;
mod status;
mod text;
mod transfer;

pub use boxed::Boxed;
pub use digits::push_hex;
pub use endpoint::{ENDPOINTS, EpAddr, EpKind, EpRow, EpTable, endpoint_count, is_in_endpoint};
pub use incoming::Incoming;
pub use limits::{
    LONGEST_CLIENT_PACKET, LONGEST_HOST_PACKET, MAX_PACKETS, MAX_TRANSFER, transfer_limits,
};
pub use list::{Bytes, List};
pub use memory::Memory;
pub use number::{
    array_at, be_u16_at, be_u32_at, le_u16_at, le_u32_at, le_u64_at, push_be_u16, push_be_u32,
    push_le_u16, push_le_u32, push_le_u64,
};
pub use packet_bytes::PacketBytes;
pub use reason::Reason;
pub use receive_buffer::ReceiveBuffer;
pub use refusal::Refusal;
pub use setup::{Setup, setups_spell_again};
pub use side::Side;
pub use speed::Speed;
pub use status::{UsbStatus, status_bytes_again};
pub use text::padded;
pub use transfer::{Outcome, StreamPacket, Transfer};
