//! The lines of a tape.

ghost use Rattle.std.specs.Prelude.{◌≡◌, Some, None, true, is_some, IfOk};
ghost use Rattle.packet_show.specs.Tape.{bytes_of, endpoint_of, replay_line, step_line, model_line, replay_has_bytes, model_has_bytes, takes_memory, want, error_text};

use crate::number::read_number;
use hex::{FromHex, FromHexError};
use std::alloc::{AllocError, Global};
use std::error::Error;
use std::fmt;
use usb_base::{Bytes, EpAddr, Memory};

/// How many bytes a tape may have, the LFs of its lines counted.
pub const TAPE_LIMIT: u64 = 67_108_864;

/// What a line of a tape to replay says, which has the bytes of both sides, as they come to the gateway. The bytes of a
/// piece are one at least.
#[derive(Drop)]
pub enum ReplayLine {
    /// Nothing: it is empty, or begins with `#`.
    Skip,
    /// `c HEX`: the next bytes of the client's stream.
    Client(Bytes),
    /// `c.`
    ClientEnd,
    /// `h HEX`: the next bytes of the host's stream.
    Host(Bytes),
    /// `h.`
    HostEnd,
}

/// What a line of a model's tape says, which has the client's bytes, and the steps of the two wires and of a modelled
/// device. The bytes of a piece are one at least.
#[derive(Drop)]
pub enum ModelLine {
    /// Nothing: it is empty, or begins with `#`.
    Skip,
    /// `c HEX`: the next bytes of the client's stream.
    Client(Bytes),
    /// `c.`
    ClientEnd,
    /// `g N`: so many bytes go to the host, or all there are.
    ToHost(u32),
    /// `h N`: so many bytes go to the gateway, or all there are.
    ToGate(u32),
    /// `p EP`: the device performs the next transfer of an endpoint.
    Perform(EpAddr),
    /// `o EP`: the device offers a packet of an endpoint.
    Offer(EpAddr),
    /// `x`: the device is unplugged.
    Unplug,
}

/// Why a line isn't read.
#[derive(Clone, Copy, Debug)]
pub enum LineError {
    /// It isn't a line of such a tape.
    Bad,
    /// No memory was left for the bytes of a piece.
    Memory(Memory),
}

impl fmt::Display for LineError {
    ghost output = { λ error. Some (error_text error) };

    fn fmt<W: fmt::Write>(&self, f: &mut fmt::Formatter<W>) -> fmt::Result {
        match self {
            LineError::Bad => write!(f, "not a line of such a tape"),
            LineError::Memory(memory) => write!(f, "{memory}"),
        }
    }
}

impl Error for LineError {}

impl From<Memory> for LineError {
    ghost use Rattle.packet_show.specs.declared.tape.LineError.TheVariants as line;

    ghost from_gives = { λ memory e. e ≡ line.Memory memory };

    fn from(memory: Memory) -> Self {
        LineError::Memory(memory)
    }
}

impl ReplayLine {
    /// Reads a line, which is given without its LF. It wants memory for the bytes of a piece alone.
    pub fn read(alloc: Global, line: &[u8]) -> Result<ReplayLine, LineError>
        ensures ok { IfOk result (λ said. replay_line line.now ≡ Some said) }
        ensures bad { result ≡ Err LineError.Bad → replay_line line.now ≡ None }
        ensures memory { result ≡ Err (LineError.Memory want) → takes_memory replay_has_bytes (replay_line line.now) ≡ true }
    {
        match line {
            [] | [b'#', ..] => Ok(ReplayLine::Skip),
            [b'c', b'.'] => Ok(ReplayLine::ClientEnd),
            [b'c', b' ', digits @ ..] => Ok(ReplayLine::Client(read_bytes(alloc, digits)?)),
            [b'h', b'.'] => Ok(ReplayLine::HostEnd),
            [b'h', b' ', digits @ ..] => Ok(ReplayLine::Host(read_bytes(alloc, digits)?)),
            _ => Err(LineError::Bad),
        }
    }
}

impl ModelLine {
    /// Reads a line, which is given without its LF. It wants memory for the bytes of a piece alone.
    pub fn read(alloc: Global, line: &[u8]) -> Result<ModelLine, LineError>
        ensures ok { IfOk result (λ said. model_line line.now ≡ Some said) }
        ensures bad { result ≡ Err LineError.Bad → model_line line.now ≡ None }
        ensures memory { result ≡ Err (LineError.Memory want) → takes_memory model_has_bytes (model_line line.now) ≡ true }
    {
        match line {
            [] | [b'#', ..] => Ok(ModelLine::Skip),
            [b'c', b'.'] => Ok(ModelLine::ClientEnd),
            [b'c', b' ', digits @ ..] => Ok(ModelLine::Client(read_bytes(alloc, digits)?)),
            _ => read_step(line).ok_or(LineError::Bad),
        }
    }
}

/// Reads a step of the wires or of a modelled device.
fn read_step(line: &[u8]) -> Option<ModelLine>
    ensures { result ≡ step_line line.now }
{
    match line {
        [b'g', b' ', number @ ..] => read_number(number).map(ModelLine::ToHost),
        [b'h', b' ', number @ ..] => read_number(number).map(ModelLine::ToGate),
        [b'p', b' ', digits @ ..] => read_endpoint(digits).map(ModelLine::Perform),
        [b'o', b' ', digits @ ..] => read_endpoint(digits).map(ModelLine::Offer),
        [b'x'] => Some(ModelLine::Unplug),
        _ => None,
    }
}

/// Reads the hexadecimal digits of bytes.
fn read_bytes(alloc: Global, digits: &[u8]) -> Result<Bytes, LineError>
    ensures ok { IfOk result (λ bytes. bytes_of digits.now ≡ Some bytes) }
    ensures bad { result ≡ Err LineError.Bad → bytes_of digits.now ≡ None }
    ensures memory { result ≡ Err (LineError.Memory want) → is_some (bytes_of digits.now) ≡ true }
{
    match hex::decode(alloc, digits) {
        Ok(decoded) if !decoded.is_empty() => Ok(Bytes::of(decoded)),
        // Memory is wanted before the digits are looked at.
        Err(FromHexError::OutOfMemory) if are_digits(digits) => {
            Err(LineError::Memory(AllocError.into()))
        }
        _ => Err(LineError::Bad),
    }
}

/// Whether these are the digits of a byte at least.
fn are_digits(digits: &[u8]) -> bool
    ensures { result ≡ is_some (bytes_of digits.now) }
{
    if digits.is_empty() || digits.len() % 2 != 0 {
        return false;
    }
    digits.iter().all(|digit| digit.is_ascii_hexdigit())
}

/// Reads the two hexadecimal digits of an endpoint's address.
fn read_endpoint(digits: &[u8]) -> Option<EpAddr>
    ensures { result ≡ endpoint_of digits.now }
{
    let [byte] = <[u8; 1]>::from_hex(digits).ok()?;
    EpAddr::new(byte)
}
