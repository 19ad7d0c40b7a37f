//! The words, the command that they ask for, and the commands between links.
#![tactic(auto)]

mod links;
mod words;

pub use links::ended::ended_as;
pub use links::host::host;
pub use links::interval::interval_units;
pub use links::pace::pace_of;
pub use links::serve::{BUDGET, serve};
pub use words::command::Command;
pub use words::lending::Lending;
pub use words::serving::Serving;
pub use words::wrong::{COMMANDS, Wrong, wrong_with};
