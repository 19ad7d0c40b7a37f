//! The loop between links: events come from the links of both sides in turn, and what is served, whatever that is, sends
//! back to these.
#![tactic(auto)]

mod course;
mod events;
mod laws;
mod served;
mod written;

pub use course::at_door::run_at_door;
pub use course::between::{RunTerms, run_between};
pub use course::serve_end::ServeEnd;
pub use events::event::LinkEvent;
pub use events::sent::Sent;
pub use laws::{clients_get_their_own, few_lines_wait, round_limits};
pub use served::Served;
