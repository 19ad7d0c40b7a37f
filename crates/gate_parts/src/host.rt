//! What the host says.

pub mod fill;
pub mod filling;
pub mod response;
