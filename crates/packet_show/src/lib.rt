//! Packets of both protocols as lines of text, and the lines of a tape.
#![tactic(auto)]

mod client;
mod line;
mod number;
mod redir;
mod tape;
mod urb;

pub use client::{show_client, show_devlist, show_import};
pub use number::read_number;
pub use redir::show_redir;
pub use tape::{LineError, ModelLine, ReplayLine, TAPE_LIMIT};
pub use urb::{show_submit, show_unlink};
