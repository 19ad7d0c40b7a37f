//! What the gateway means: what the packets of USB/IP clients and of a usbredir host mean in the order in which they
//! become whole, and what is sent to each side for them. No table of requests and no stream's buffer is named here.
#![tactic(auto)]

mod event;
mod facts;
mod item;
mod laws;
mod note;
mod request;
mod sent;
mod sides;
mod verdict;

pub use event::Event;
pub use facts::Facts;
pub use item::Item;
pub use laws::{
    events_add_items, ids_fly_once, losses_end_all, machine_is_past, refusals_have_causes,
    rests_are_short, sent_can_be_read, states_are_sound, streams_hold_few, streams_split_one_way,
    submits_end_once,
};
pub use note::{Counts, Note, Notes, push_refusals};
pub use request::{AnsweredSubmit, Request};
pub use sent::{GATEWAY_NAME, PACKETS_PER_URB, STREAM_URBS, gateway_name, iso_start_numbers};
pub use sides::Sides;
pub use verdict::{MAX_NARROW, Pipe, Situation, Verdict, narrow_limit};
