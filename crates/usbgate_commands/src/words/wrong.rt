//! What is wrong with words that are no command.

use crate::words::command_line::command_line;
use crate::words::command_table::CommandRow;
use crate::words::given::Given;
use clap::error::ErrorKind;
use std::alloc::{AllocError, Global};
use std::fmt;
use usb_base::Memory;

/// The commands, each with its words, a line each.
pub const COMMANDS: &str = "commands:
  replay [--first-id N]
  model --device keyboard|loop|tone|disk
  show --side client|host
  serve --host ADDR --listen ADDR --idle N [--first-id N] [--after-loss keep|close] [--record FILE]
  host --device keyboard|loop|tone|disk --listen ADDR --idle N
  make N
  load N
";

/// Why words are no command.
#[derive(Drop)]
pub enum Wrong<'a> {
    /// They are no line of words and options.
    CommandLine(clap::Error),
    /// No command has this name.
    Name(&'a str),
    /// The command of this name lacks its number or an option that it needs, or has one that isn't its own.
    Options(&'a str),
    /// A value of this command isn't one that it may be.
    Value(&'a str),
}

impl<'a> fmt::Display for Wrong<'a> {
    fn fmt<W: fmt::Write>(&self, f: &mut fmt::Formatter<W>) -> fmt::Result {
        match self {
            Wrong::CommandLine(error) => write!(f, "{error}"),
            Wrong::Name(name) => write!(f, "error: there is no command '{name}'\n"),
            Wrong::Options(name) => write!(
                f,
                "error: an option of '{name}' is missing, or one isn't its own\n"
            ),
            Wrong::Value(name) => write!(
                f,
                "error: a value of '{name}' isn't one that it may be\n"
            ),
        }
    }
}

/// What is wrong with these words, which are no command.
pub fn wrong_with<'a>(alloc: Global, words: &'a [&'a str]) -> Result<Wrong<'a>, Memory> {
    let matches = match command_line(alloc)?.try_get_matches_from(words) {
        Ok(matches) => matches,
        Err(error) if error.kind() == ErrorKind::OutOfMemory => return Err(AllocError.into()),
        Err(error) => return Ok(Wrong::CommandLine(error)),
    };
    let given = Given::of(&matches);
    let name = given.command.unwrap_or("");
    Ok(match CommandRow::named(name) {
        None => Wrong::Name(name),
        Some(row) if row.is_met(&given) => Wrong::Value(name),
        Some(_) => Wrong::Options(name),
    })
}
