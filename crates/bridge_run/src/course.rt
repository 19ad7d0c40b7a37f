//! The course of serving, in rounds.

pub mod at_door;
pub mod between;
pub mod polling;
pub mod rounds;
pub mod serve_end;
pub mod session;
