//! Packets, and streams of them: what a format of packets is, what a reader answers, and how a stream that
//! comes in pieces is split into its packets.
#![tactic(auto)]

mod format;
mod read;
mod splitting;
mod stream;
mod taker;

pub use format::PacketFormat;
pub use read::{Read, ReadError};
pub use splitting::splits_well;
pub use stream::Stream;
pub use taker::{PacketTaker, take_piece, take_piece_from};
pub use usb_base::PacketBytes;
