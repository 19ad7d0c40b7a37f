//! The modelled devices, and the tapes that are made for them.

pub mod device;
pub mod make;
pub mod user;
