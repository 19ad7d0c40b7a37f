//! The words, read by one simple command line: a command's name, a number, and options with a value each.

ghost use Rattle.std.specs.Prelude.{◌≡◌, IfOk, option_map, false};
ghost use Rattle.clap.specs.Words.{app_of, rule_of, rows_of, found_of};
ghost use Rattle.usbgate_commands.specs.words.CommandLine.{command_line, option_named, found};
ghost use Rattle.usbgate_commands.specs.words.Words.{texts};

use clap::error::ErrorKind;
use clap::{Arg, ArgMatches, Command as CommandLine};
use std::alloc::{AllocError, Global};
use usb_base::Memory;

/// What is found in the words, or `None` where they are refused.
pub fn found<'a>(alloc: Global, words: &'a [&'a str]) -> Result<Option<ArgMatches<'a>>, Memory>
    ensures { IfOk result (λ matches. option_map (λ m. rows_of (found_of m)) matches ≡ found (texts words.now)) }
{
    match command_line(alloc)?.try_get_matches_from(words) {
        Ok(matches) => Ok(Some(matches)),
        Err(error) => match error.kind() {
            ErrorKind::OutOfMemory => Err(AllocError.into()),
            _ => Ok(None),
        },
    }
}

/// How a line of words is to be read.
pub fn command_line<'a>(alloc: Global) -> Result<CommandLine<'a>, AllocError>
    ensures { IfOk result (λ line. app_of line ≡ command_line) }
{
    CommandLine::new(alloc, "usbgate")
        .no_binary_name(true)
        .arg(Arg::new(alloc, "command").required(true))?
        .arg(Arg::new(alloc, "number"))?
        .arg(option(alloc, "device"))?
        .arg(option(alloc, "side"))?
        .arg(option(alloc, "host"))?
        .arg(option(alloc, "listen"))?
        .arg(option(alloc, "idle"))?
        .arg(option(alloc, "first-id"))?
        .arg(option(alloc, "after-loss"))?
        .arg(option(alloc, "record"))
}

/// `--NAME VALUE`, or `--NAME=VALUE`.
fn option<'a>(alloc: Global, name: &'a str) -> Arg<'a>
    ensures rule { rule_of result ≡ option_named name.entry.now }
    ensures local { result.global ≡ false }
{
    Arg::new(alloc, name).long(name)
}
