//! The packets of USB network redirection that move no data of a transfer, read and written.
#![tactic(auto)]

mod capability;
mod control;
mod ep_table;
mod field;
mod header;
mod kind;
mod laws;
mod next;
mod packet;
mod read;
mod state;
mod types;
mod write;

pub use field::{FieldWriter, Wire};
pub use header::{MAX_LENGTH, header_size, read_header};
pub use kind::{
    DataKind, FIRST_DATA, HELLO, INTERFACE_INFO, Kind, More, PlainKind, Tail, TypeRow, is_left_out,
};
pub use laws::{headers_sound, plain_sound, protocol_numbers, read_again, read_by_parts};
pub use next::next_control;
pub use packet::{
    Caps, Connect, EpInfo, Header, HeaderRead, Hello, INTERFACE_CELLS, InterfaceInfo,
    MAX_HELLO_WORDS, MAX_INTERFACES, RedirControl, Way, WireError, Words,
};
pub use read::read_control;
pub use state::RedirState;
pub use write::{push_header, write_control};
