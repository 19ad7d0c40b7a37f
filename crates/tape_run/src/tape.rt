//! A tape and its lines, and commands over them.

pub mod command;
pub mod events;
pub mod lines;
pub mod reader;
