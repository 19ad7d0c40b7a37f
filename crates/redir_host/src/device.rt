//! What the device does, and is.

pub mod change;
pub mod facts;
pub mod offer;
pub mod perform;
