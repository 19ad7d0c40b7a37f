//! The parts of the gate: the verdict on a submit, ids, streams, and the packets that are written to each side.
#![tactic(auto)]

mod client;
mod host;
mod state;
mod write;

pub use client::reply::{failed_import, import_reply, is_exported, list_reply};
pub use client::verdict::decide;
pub use host::fill::{finish_fronts, write_fillings};
pub use host::response::{
    Response, StreamIn, data_of, head_size, mismatch, status_of, stream_in, stream_packet,
};
pub use state::id::draw;
pub use state::stream_ids::{SentIds, StreamIds, lifted};
pub use state::streams::{Streams, is_ended};
pub use write::answer::{write_all_sent, write_ret_unlink, write_without_packets};
pub use write::ask::{
    acknowledge, wire_packet, write_cancel, write_cancel_of, write_hello, write_route, write_start,
    write_stop,
};
pub use write::finish::{row_for, write_completed, write_end_of, write_lost};
pub use write::outputs::Outputs;
pub use write::refusal::{client_refusal, host_refusal};
