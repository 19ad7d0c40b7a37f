//! The commands, and which words stand with each.

ghost use Rattle.std.specs.Prelude.{◌≡◌, ℕ, List, Option};
ghost use Rattle.usbgate_commands.specs.words.Words.{admits, is_met, name_of, row_named};
ghost use Rattle.usbgate_commands.specs.inner.Given.{IsGiven};

use crate::words::given::Given;

/// Whether a word stands with a command.
#[derive(Clone, Copy, PartialEq, Eq)]
pub enum Need {
    Must,
    May,
    MustNot,
}

/// What a command does.
#[derive(Clone, Copy, PartialEq, Eq)]
pub enum Verb {
    Replay,
    Model,
    Show,
    Serve,
    Host,
    Make,
    Load,
}

/// A command, and which words stand with it.
#[derive(Clone, Copy)]
pub struct CommandRow {
    pub verb: Verb,
    pub number: Need,
    pub device: Need,
    pub side: Need,
    pub host: Need,
    pub listen: Need,
    pub idle: Need,
    pub first_id: Need,
    pub after_loss: Need,
    pub recording: Need,
}

// A command with which no word stands: each row below says only which do with its own.
const BARE: CommandRow = CommandRow {
    verb: Verb::Replay,
    number: Need::MustNot,
    device: Need::MustNot,
    side: Need::MustNot,
    host: Need::MustNot,
    listen: Need::MustNot,
    idle: Need::MustNot,
    first_id: Need::MustNot,
    after_loss: Need::MustNot,
    recording: Need::MustNot,
};

/// All commands.
pub const ROWS: [CommandRow; 7] = [
    CommandRow {
        verb: Verb::Replay,
        first_id: Need::May,
        ..BARE
    },
    CommandRow {
        verb: Verb::Model,
        device: Need::Must,
        ..BARE
    },
    CommandRow {
        verb: Verb::Show,
        side: Need::Must,
        ..BARE
    },
    CommandRow {
        verb: Verb::Serve,
        host: Need::Must,
        listen: Need::Must,
        idle: Need::Must,
        first_id: Need::May,
        after_loss: Need::May,
        recording: Need::May,
        ..BARE
    },
    CommandRow {
        verb: Verb::Host,
        device: Need::Must,
        listen: Need::Must,
        idle: Need::Must,
        ..BARE
    },
    CommandRow {
        verb: Verb::Make,
        number: Need::Must,
        ..BARE
    },
    CommandRow {
        verb: Verb::Load,
        number: Need::Must,
        ..BARE
    },
];

impl Need {
    /// Whether it admits that the word is given, or that it isn't.
    fn admits(self, is_given: bool) -> bool
        ensures { result ≡ admits self is_given }
    {
        match self {
            Need::Must => is_given,
            Need::May => true,
            Need::MustNot => !is_given,
        }
    }
}

impl Verb {
    /// The command's name.
    fn name(self) -> &'static str
        ensures { result.now ≡ name_of self }
    {
        match self {
            Verb::Replay => "replay",
            Verb::Model => "model",
            Verb::Show => "show",
            Verb::Serve => "serve",
            Verb::Host => "host",
            Verb::Make => "make",
            Verb::Load => "load",
        }
    }
}

impl CommandRow {
    /// The row of the command with this name.
    pub fn named(name: &str) -> Option<CommandRow>
        ensures { result ≡ row_named name.now }
    {
        ROWS.iter().find(|row| row.verb.name() == name).copied()
    }

    /// Whether all words are given that the command must have, and none that it must not.
    pub fn is_met(&self, given: &Given<'_>) -> bool
        ensures { (words : List ℕ → Option (List ℕ)) → IsGiven given.now words → result ≡ is_met self.now words }
    {
        let words = [
            (self.number, given.number),
            (self.device, given.device),
            (self.side, given.side),
            (self.host, given.host),
            (self.listen, given.listen),
            (self.idle, given.idle),
            (self.first_id, given.first_id),
            (self.after_loss, given.after_loss),
            (self.recording, given.recording),
        ];
        words.iter().all(|(need, word)| need.admits(word.is_some()))
    }
}
