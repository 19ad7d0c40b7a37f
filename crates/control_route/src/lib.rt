//! What the gateway does with a control transfer of endpoint 0: which setups usbredir has packets of their own
//! for, and which of them change the device's interfaces.
#![tactic(auto)]

mod change;
mod route;

pub use change::{is_change, touches};
pub use route::{Route, route_of};
