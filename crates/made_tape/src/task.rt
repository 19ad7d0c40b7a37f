//! What a round does, line by line.

ghost use Rattle.std.specs.Prelude.{◌≡◌, true, IfOk, OnErr};
ghost use Rattle.usb_base.specs.Endpoint.{IsEndpoint};
ghost use Rattle.packet_show.specs.Tape.{model_has_bytes};
ghost use Rattle.made_tape.specs.Rounds.{said, opening, tasks_of, next_number, size_of};

use crate::packet::{ask, configure, import, send, take_back};
use packet_show::ModelLine;
use std::alloc::Global;
use usb_base::{EpAddr, Memory};

/// What a line does, apart from its round's number and size.
#[derive(Clone, Copy, PartialEq, Eq)]
pub enum Task {
    /// The client imports the device.
    Import,
    /// It sets the configuration.
    Configure,
    /// It sends bytes to endpoint 1.
    Send,
    /// It asks for bytes of endpoint 1.
    Ask,
    /// It takes back what it asked for.
    TakeBack,
    /// One byte, or all there are, goes to the host.
    OneToHost,
    AllToHost,
    /// The same to the gateway.
    OneToGate,
    AllToGate,
    /// The device performs a transfer of endpoint 0, of endpoint 1 to it, or of endpoint 1 from it.
    PerformControl,
    PerformOut,
    PerformIn,
}

/// All bytes that there are.
pub const ALL: u32 = u32::MAX;

/// How many bytes a round moves at most.
pub const MOST_MOVED: u32 = 512;

/// What is done before the first round.
pub fn opening() -> &'static [Task]
    ensures { result.now ≡ opening }
{
    &[
        Task::AllToHost,
        Task::AllToGate,
        Task::Import,
        Task::Configure,
        Task::AllToHost,
        Task::PerformControl,
        Task::AllToGate,
    ]
}

/// What a round with this number does.
#[tactic(auto, unfolding(crate::specs::Rounds::tasks_of))]
pub fn tasks(number: u32) -> &'static [Task]
    ensures { result.now ≡ tasks_of number }
{
    match number / MOST_MOVED % 4 {
        0 => &[
            Task::Send,
            Task::Ask,
            Task::AllToHost,
            Task::PerformOut,
            Task::PerformIn,
            Task::AllToGate,
        ],
        1 => &[
            Task::Send,
            Task::Ask,
            Task::AllToHost,
            Task::PerformOut,
            Task::TakeBack,
            Task::PerformIn,
            Task::AllToHost,
            Task::AllToGate,
        ],
        2 => &[
            Task::Send,
            Task::Ask,
            Task::AllToHost,
            Task::PerformOut,
            Task::TakeBack,
            Task::AllToHost,
            Task::PerformIn,
            Task::AllToGate,
        ],
        _ => &[
            Task::Send,
            Task::Ask,
            Task::OneToHost,
            Task::AllToHost,
            Task::PerformOut,
            Task::PerformIn,
            Task::OneToGate,
            Task::AllToGate,
        ],
    }
}

/// The number of the round behind one with this number.
#[tactic(auto, unfolding(crate::specs::Rounds::next_number))]
pub fn next_number(number: u32) -> u32
    ensures { result ≡ next_number number }
{
    ((1_103_515_245 * u64::from(number) + 12_345) % 0x8000_0000) as u32
}

/// How many bytes a round with this number moves, one at least.
fn size_of(number: u32) -> u16
    ensures { result ≡ size_of number }
{
    (1 + number % MOST_MOVED) as u16
}

/// The endpoint with this address.
fn endpoint(byte: u8) -> EpAddr
    requires { IsEndpoint byte }
    ensures { result ≡ byte }
{
    EpAddr::new(byte).unwrap()
}

/// The line of a task in a round.
pub fn said(alloc: Global, round: u16, number: u32, task: Task) -> Result<ModelLine, Memory>
    ensures line { IfOk result (λ line. line ≡ said round number task) }
    ensures wants { OnErr result (model_has_bytes (said round number task) ≡ true) }
{
    Ok(match task {
        Task::Import => ModelLine::Client(import(alloc)?),
        Task::Configure => ModelLine::Client(configure(alloc)?),
        Task::Send => ModelLine::Client(send(alloc, round, size_of(number))?),
        Task::Ask => ModelLine::Client(ask(alloc, round, size_of(number))?),
        Task::TakeBack => ModelLine::Client(take_back(alloc, round)?),
        Task::OneToHost => ModelLine::ToHost(1),
        Task::AllToHost => ModelLine::ToHost(ALL),
        Task::OneToGate => ModelLine::ToGate(1),
        Task::AllToGate => ModelLine::ToGate(ALL),
        Task::PerformControl => ModelLine::Perform(endpoint(0x00)),
        Task::PerformOut => ModelLine::Perform(endpoint(0x01)),
        Task::PerformIn => ModelLine::Perform(endpoint(0x81)),
    })
}
