//! What a device with one configuration answers on endpoint 0 (USB 2.0, chapter 9): its descriptors walked,
//! the table of its endpoints, and the standard requests.
#![tactic(auto)]

mod descriptors;
mod outcome;
mod part;
mod requests;
mod standard_requests;
mod state;
mod table;

pub use descriptors::{WalkError, descriptors_join, walk};
pub use outcome::{ended, stall, success, taken};
pub use part::{Part, Parts};
pub use requests::{ControlRead, ControlWrite, Request, request_of};
pub use standard_requests::{DescriptorSet, standard};
pub use state::DevState;
pub use table::{InterfaceClass, class_of, table_of};
