//! The tape of a session: the lines of what came, as `replay` and `show` read them, and where they are written.
#![tactic(auto)]

mod file_tape;
mod lines;
mod no_tape;
mod tape;
mod telling;
mod text_tape;

pub use file_tape::FileTape;
pub use lines::{first_comment, push_end, push_lettered, push_piece, push_refusal};
pub use no_tape::NoTape;
pub use tape::{MakeTape, Tape, Unmade};
pub use text_tape::TextTape;
