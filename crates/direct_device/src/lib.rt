//! The device attached directly: what it keeps, what each item of a trace does to it and answers, and which traces it
//! allows. It has no id, packet, capability or wire.
#![tactic(auto)]

mod laws;

pub use laws::{gadgets_never_cancel, performed_at_most_once};
