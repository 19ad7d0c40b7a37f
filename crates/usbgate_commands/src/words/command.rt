//! The words behind the program's name.

ghost use Rattle.std.specs.Prelude.{◌≡◌, ◌≤◌, ◌<◌, ◌^◌, ℕ, List, Option, IfOk, IfSome, unwrap_or, codes};
ghost use Rattle.usbgate_commands.specs.declared.words.command_table.Verb.TheVariants as verb;
ghost use Rattle.usbgate_commands.specs.words.Words.{texts, first_id_of, after_loss_of, count_of, asked_by, command_in, command_of, HasNumbers};
ghost use Rattle.usbgate_commands.specs.inner.Given.{IsGiven};

use crate::words::command_line::found;
use crate::words::command_table::{CommandRow, Verb};
use crate::words::given::Given;
use crate::words::lending::Lending;
use crate::words::serving::Serving;
use bridge_serve::AfterLoss;
use made_tape::MOST_ROUNDS;
use packet_show::read_number;
use std::alloc::Global;
use tape_run::Device;
use usb_base::{Memory, Side};

/// What the words ask for.
#[derive(Drop)]
pub enum Command<'a> {
    /// Puts a tape to a gate. The first packet to the host gets the first id.
    Replay { first_id: u32 },
    /// Does the steps of a tape with a gate and a modelled device.
    Model { device: Device },
    /// Shows the packets of a side's stream in a tape.
    Show { side: Side },
    /// Serves clients the device of a host, over sockets.
    Serve(Serving<'a>),
    /// Lends a modelled device to a guest, over sockets.
    Host(Lending<'a>),
    /// Prints the tape of a number.
    Make { count: u16 },
    /// Does the steps of that tape with a gateway and a modelled loop, and prints the counts.
    Load { count: u16 },
    /// They are no command.
    Unknown,
}

impl<'a> Command<'a> {
    /// Reads the words.
    pub fn read(alloc: Global, words: &'a [&'a str]) -> Result<Command<'a>, Memory>
        ensures value { IfOk result (λ command. command ≡ command_of (texts words.now)) }
        ensures numbers { IfOk result HasNumbers }
    {
        match found(alloc, words)? {
            Some(matches) => Ok(Command::meant_by(&Given::of(&matches))),
            None => Ok(Command::Unknown),
        }
    }

    /// The command that these words mean.
    fn meant_by(given: &Given<'a>) -> Command<'a>
        ensures value { (words : List ℕ → Option (List ℕ)) → IsGiven given.now words → result ≡ unwrap_or (command_in words) Command.Unknown }
        ensures numbers { HasNumbers result }
    {
        known(given).unwrap_or(Command::Unknown)
    }
}

/// The command of the table whose row these words meet.
fn known<'a>(given: &Given<'a>) -> Option<Command<'a>>
    ensures value { (words : List ℕ → Option (List ℕ)) → IsGiven given.now words → result ≡ command_in words }
    ensures numbers { IfSome result HasNumbers }
{
    let row = CommandRow::named(given.command?)?;
    if !row.is_met(given) {
        return None;
    }
    asked(row.verb, given)
}

/// What this command asks for by its values: `replay [--first-id N]`, `model --device NAME`, `make N`, `load N`, and
/// those below.
fn asked<'a>(verb: Verb, given: &Given<'a>) -> Option<Command<'a>>
    ensures value { (words : List ℕ → Option (List ℕ)) → IsGiven given.now words → result ≡ asked_by verb words }
    ensures numbers { IfSome result HasNumbers }
{
    match verb {
        Verb::Replay => Some(Command::Replay {
            first_id: first_id(given)?,
        }),
        Verb::Model => Some(Command::Model {
            device: Device::named(given.device?)?,
        }),
        Verb::Show => show(given),
        Verb::Serve => serve(given),
        Verb::Host => host(given),
        Verb::Make => Some(Command::Make {
            count: count(given)?,
        }),
        Verb::Load => Some(Command::Load {
            count: count(given)?,
        }),
    }
}

/// `show --side client` or `show --side host`.
fn show<'a>(given: &Given<'a>) -> Option<Command<'a>>
    ensures value { (words : List ℕ → Option (List ℕ)) → IsGiven given.now words → result ≡ asked_by verb.Show words }
    ensures numbers { IfSome result HasNumbers }
{
    let side = match given.side? {
        "client" => Side::Client,
        "host" => Side::Host,
        _ => return None,
    };
    Some(Command::Show { side })
}

/// `serve --host ADDR --listen ADDR --idle N [--first-id N] [--after-loss keep|close] [--record FILE]`
fn serve<'a>(given: &Given<'a>) -> Option<Command<'a>>
    ensures value { (words : List ℕ → Option (List ℕ)) → IsGiven given.now words → result ≡ asked_by verb.Serve words }
    ensures numbers { IfSome result HasNumbers }
{
    let serving = Serving {
        host: given.host?,
        listen: given.listen?,
        idle: read_number(given.idle?.as_bytes())?,
        first_id: first_id(given)?,
        after_loss: after_loss(given)?,
        recording: given.recording,
    };
    Some(Command::Serve(serving))
}

/// `host --device NAME --listen ADDR --idle N`
fn host<'a>(given: &Given<'a>) -> Option<Command<'a>>
    ensures value { (words : List ℕ → Option (List ℕ)) → IsGiven given.now words → result ≡ asked_by verb.Host words }
    ensures numbers { IfSome result HasNumbers }
{
    let lending = Lending {
        device: Device::named(given.device?)?,
        listen: given.listen?,
        idle: read_number(given.idle?.as_bytes())?,
    };
    Some(Command::Host(lending))
}

/// The number of a made tape.
fn count(given: &Given<'_>) -> Option<u16>
    ensures value { (words : List ℕ → Option (List ℕ)) → IsGiven given.now words → result ≡ count_of (words (codes "number")) }
    ensures few { IfSome result (λ n. n ≤ MOST_ROUNDS) }
{
    match read_number(given.number?.as_bytes())? {
        number if number <= u32::from(MOST_ROUNDS) => Some(number as u16),
        _ => None,
    }
}

/// The value of `--first-id`; without the option the first id is 1.
fn first_id(given: &Given<'_>) -> Option<u32>
    ensures value { (words : List ℕ → Option (List ℕ)) → IsGiven given.now words → result ≡ first_id_of (words (codes "first-id")) }
    ensures fits { IfSome result (λ n. (1 ≤ n) × (n < 2 ^ 32)) }
{
    match given.first_id {
        Some(text) => read_number(text.as_bytes()),
        None => Some(1),
    }
}

/// The value of `--after-loss`; without the option the client is kept.
fn after_loss(given: &Given<'_>) -> Option<AfterLoss>
    ensures { (words : List ℕ → Option (List ℕ)) → IsGiven given.now words → result ≡ after_loss_of (words (codes "after-loss")) }
{
    match given.after_loss {
        None => Some(AfterLoss::Keep),
        Some("keep") => Some(AfterLoss::Keep),
        Some("close") => Some(AfterLoss::Close),
        Some(_) => None,
    }
}
