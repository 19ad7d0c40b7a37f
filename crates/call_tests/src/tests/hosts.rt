//! Hosts that lend their devices live as the rows say.

use crate::tests::host_rows::*;
use crate::tests::laid_out::{GoesByRows, Names, goes_by};
use model_device::{Gadget, Keyboard, Loopback, Tone};
use redir_host::{HostCore, HostNote, Offered, Performed};
use std::alloc::Global;
use std::test::Fail;
use usb_base::{Bytes, EpAddr, Memory};

/// The endpoint of these hexadecimal digits.
fn address(digits: &str) -> Option<EpAddr> {
    EpAddr::new(u8::from_str_radix(digits, 16).ok()?)
}

/// What a call tells: a word and its number, an id or a place.
type Told = (&'static str, u64);

const QUIET: Told = ("", 0);

/// Whether these words say what a call told.
fn is_told((name, number): Told, words: &str) -> bool {
    match words.rsplit_once(' ') {
        Some((word, digits)) => word == name && digits.parse() == Ok(number),
        None => words == name,
    }
}

fn noted(notes: &[HostNote]) -> Told {
    match notes {
        [] => QUIET,
        [HostNote::Cancelled { id }] => ("cancelled", *id),
        [HostNote::Refused { place, reason }] => (reason.name(), *place),
        more => ("notes", more.len() as u64),
    }
}

fn performed(told: Performed) -> Told {
    match told {
        Performed::Done { id } => ("done", id),
        Performed::NotReady => ("not ready", 0),
        Performed::Unplugged => ("unplugged", 0),
    }
}

fn offered(told: Offered) -> Told {
    match told {
        Offered::Sent => ("sent", 0),
        Offered::Nothing => ("nothing", 0),
        Offered::Closed => ("closed", 0),
        Offered::Unplugged => ("unplugged", 0),
    }
}

fn heard<G: Gadget>(
    names: &Names,
    core: &mut HostCore<G>,
    words: &str,
    out: &mut Bytes,
) -> Result<Told, Memory> {
    let piece = names.bytes(words)?;
    let notes = core.take(piece.as_slice(), out)?;
    Ok(noted(notes.as_slice()))
}

/// Each byte of these words is a piece of its own.
fn heard_by_bytes<G: Gadget>(
    names: &Names,
    core: &mut HostCore<G>,
    words: &str,
    out: &mut Bytes,
) -> Result<Told, Memory> {
    let bytes = names.bytes(words)?;
    for byte in bytes.as_slice() {
        core.take(&[*byte], out)?;
    }
    Ok(QUIET)
}

/// The device is used at this endpoint: performed, or offered.
fn used<G: Gadget>(
    core: &mut HostCore<G>,
    letter: &str,
    ep: EpAddr,
    out: &mut Bytes,
) -> Result<Told, Memory> {
    match letter {
        "p" => Ok(performed(core.perform(ep, out)?)),
        _ => Ok(offered(core.offer(ep, out)?)),
    }
}

fn unplugged<G: Gadget>(core: &mut HostCore<G>, out: &mut Bytes) -> Result<Told, Memory> {
    let told = if core.unplug(out)? {
        "gone"
    } else {
        "gone before"
    };
    Ok((told, 0))
}

fn called<G: Gadget>(
    names: &Names,
    core: &mut HostCore<G>,
    call: &str,
    out: &mut Bytes,
) -> Result<Told, Memory> {
    let (letter, words) = call.split_once(' ').unwrap_or((call, ""));
    match (letter, address(words)) {
        ("g", _) => heard(names, core, words, out),
        ("b", _) => heard_by_bytes(names, core, words, out),
        (letter, Some(ep)) => used(core, letter, ep, out),
        (_, None) => unplugged(core, out),
    }
}

/// Whether these words lay out what was sent.
fn is_laid_out(names: &Names, sent: &Bytes, words: &str) -> Result<bool, Memory> {
    Ok(sent.as_slice() == names.bytes(words)?.as_slice())
}

/// What the host of this device sends as it is made.
fn hello<G: Gadget>(alloc: Global, gadget: G) -> Result<Bytes, Memory> {
    let mut out = Bytes::new(alloc);
    HostCore::make(alloc, gadget, &mut out)?;
    Ok(out)
}

/// The host of this device, which has sent its hello.
fn made<G: Gadget>(alloc: Global, gadget: G) -> Result<HostCore<G>, Memory> {
    let mut out = Bytes::new(alloc);
    HostCore::make(alloc, gadget, &mut out)
}

impl<G: Gadget> GoesByRows for HostCore<G> {
    /// Whether a call sends and tells what its row says.
    fn goes(&mut self, names: &Names, row: &str) -> Result<bool, Fail> {
        let (call, rest) = row.split_once('|').unwrap_or((row, ""));
        let (sent, told) = rest.split_once('|').unwrap_or((rest, ""));
        let mut out = Bytes::new(names.alloc);
        let came = called(names, self, call.trim(), &mut out)?;
        Ok(is_told(came, told.trim()) && is_laid_out(names, &out, sent.trim())?)
    }
}

#[test]
fn a_host_says_hello(rt: HostRuntime) -> Result<(), Fail> {
    let names = Names::new(rt.alloc())?;
    let sent = hello(rt.alloc(), Loopback::make(rt.alloc())?)?;
    assert!(rt; is_laid_out(&names, &sent, "HG")?);
    Ok(())
}

/// Lives of the host of a loop.
const OF_A_LOOP: [&str; 12] = [
    ASKS_NOTHING,
    NO_HELLO,
    BYTE_BY_BYTE,
    ANNOUNCES_NOTHING,
    READS_AND_WRITES,
    FLUSHES,
    RESETS,
    CANCELS_BEHIND_RESETS,
    CANCELS,
    CANNOT_BE_ASKED,
    WRONG_TYPE,
    UNPLUGGED,
];

#[test]
fn a_loop_is_lent(rt: HostRuntime) -> Result<(), Fail> {
    for rows in OF_A_LOOP {
        let host = made(rt.alloc(), Loopback::make(rt.alloc())?)?;
        goes_by(&rt, rt.alloc(), host, rows)?;
    }
    Ok(())
}

#[test]
fn a_guest_streams_the_keyboard(rt: HostRuntime) -> Result<(), Fail> {
    let host = made(rt.alloc(), Keyboard::make(rt.alloc())?)?;
    goes_by(&rt, rt.alloc(), host, STREAMS)
}

#[test]
fn a_change_ends_the_streams_that_it_touches(rt: HostRuntime) -> Result<(), Fail> {
    let host = made(rt.alloc(), Tone::make(rt.alloc())?)?;
    goes_by(&rt, rt.alloc(), host, CHANGES)
}
