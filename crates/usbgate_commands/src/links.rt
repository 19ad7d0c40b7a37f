//! The commands between links: what they do, how they end, and the pace of a device that is lent.

pub mod ended;
pub mod host;
pub mod interval;
pub mod pace;
pub mod serve;
