//! What the words give.

ghost use Rattle.clap.specs.Words.{rows_of, found_of, first_of};
ghost use Rattle.usbgate_commands.specs.inner.Given.{IsGiven};

use clap::ArgMatches;

/// What the words give: a command's name, a number, and a value for each option.
#[derive(Clone, Copy)]
pub struct Given<'a> {
    pub command: Option<&'a str>,
    pub number: Option<&'a str>,
    pub device: Option<&'a str>,
    pub side: Option<&'a str>,
    pub host: Option<&'a str>,
    pub listen: Option<&'a str>,
    pub idle: Option<&'a str>,
    pub first_id: Option<&'a str>,
    pub after_loss: Option<&'a str>,
    pub recording: Option<&'a str>,
}

impl<'a> Given<'a> {
    /// The values that were found.
    pub fn of(matches: &ArgMatches<'a>) -> Given<'a>
        ensures { IsGiven result (λ name. first_of name (rows_of (found_of matches.now))) }
    {
        Given {
            command: matches.get_str("command"),
            number: matches.get_str("number"),
            device: matches.get_str("device"),
            side: matches.get_str("side"),
            host: matches.get_str("host"),
            listen: matches.get_str("listen"),
            idle: matches.get_str("idle"),
            first_id: matches.get_str("first-id"),
            after_loss: matches.get_str("after-loss"),
            recording: matches.get_str("record"),
        }
    }
}
