//! The guest's stream, its packets, and what else is done with a host.

pub mod host_core;
pub mod inner;
pub mod taker;
