//! A usbredir host in memory: it has a modelled device, and lends it to a guest over one stream of bytes each way.
#![tactic(auto)]

mod device;
mod guest;
mod laws;
mod state;
mod step;
mod write;

pub use laws::{
    acts_add_items, acts_bring_the_split, answered_at_most_once, hosts_stay_sound,
    nothing_else_is_answered, only_bytes_are_noted, performed_in_order, queues_are_lines,
    streams_answered_at_once,
};
pub use state::host::Host;
pub use state::queue::Queue;
pub use state::request::{Form, Request};
pub use state::requests::Requests;
pub use state::running::{Running, Streams};
pub use step::host_core::HostCore;
pub use write::hello::write_hello;
pub use write::note::{HostNote, HostNotes, Offered, Performed};
