//! The words, and what they ask for.

pub mod command;
pub mod command_line;
pub mod command_table;
pub mod given;
pub mod lending;
pub mod serving;
pub mod wrong;
