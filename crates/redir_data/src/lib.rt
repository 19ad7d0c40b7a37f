//! The packets of USB network redirection that move data, and all its packets together, read and written.
#![tactic(auto)]

mod data;
mod laws;
mod next;
mod packet;
mod read;
mod redir;
mod stream;
mod stream_kind;
mod write;

pub use laws::{
    control_read_again, control_writes_back, data_read_again, data_writes_back, packets_sound,
};
pub use next::next_redir;
pub use packet::{RedirData, RedirPacket, RedirRead};
pub use read::read_data;
pub use redir::read_redir;
pub use stream::{FromGuest, FromHost, Guest, Host, Sender, SentBy, advance};
pub use stream_kind::StreamKind;
pub use write::{move_data, write_data, write_iso_out};
