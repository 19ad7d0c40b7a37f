//! Each device over a short life. What a life is asks for a gadget alone, so it is a function of any gadget.

ghost use Rattle.std.specs.Prelude.{◌≡◌, IfOk};
ghost use Rattle.model_device.specs.Transfer.{IsTransfer};

use crate::tests::laid_out::{GoesByRows, Names, goes_by};
use model_device::{Gadget, Keyboard, Loopback, Tone};
use std::alloc::Global;
use std::test::Fail;
use usb_base::{Bytes, EpAddr, Memory, Outcome, Setup, StreamPacket, Transfer, UsbStatus};

// What is done with a device, and what comes of it. `ask` puts a request to it, `offer` takes an offer of IN endpoint
// 1, `send` sends bytes to OUT endpoint 1, and `want` wants so many bytes of IN endpoint 1. There come a status, how
// many bytes went or came, and those that came; or nothing.

const KEYBOARD: &str = "
    offer | nothing
    ask SETCONFIGSETUP | ok 0
    offer | ok 8 KEYA
    ask HALTINSETUP | ok 0
    offer | nothing
    ask CLEARHALTINSETUP | ok 0
    offer | ok 8 KEYB
    ask HALTINSETUP | ok 0
    offer | nothing
    ask SETCONFIGSETUP | ok 0
    offer | ok 8 KEYA
    ask SETALT1SETUP | stall 0
    offer | ok 8 KEYB
    ask SETALT0SETUP | ok 0
    offer | ok 8 KEYA
    ask GETCONFIGSETUP | ok 1 01
    offer | ok 8 KEYB
    want 8 | stall 0
    ask PORTRESETSETUP | ok 0
    offer | nothing
    ask SETCONFIGSETUP | ok 0
    ask CLEARCONFIGSETUP | ok 0
    offer | nothing
";

const TONE: &str = "
    ask SETCONFIGSETUP | ok 0
    offer | nothing
    ask SETALT1SETUP | ok 0
    offer | ok 192 00*192
    offer | ok 192 01*192
    ask SETALT0SETUP | ok 0
    offer | nothing
    ask SETALT1SETUP | ok 0
    offer | ok 192 00*192
";

const LOOP: &str = "
    want 8 | stall 0
    ask SETCONFIGSETUP | ok 0
    send 01020304 | ok 4
    send 0506 | ok 2
    want 3 | ok 3 010203
    want 0 | ok 0
    want 64 | ok 3 040506
    want 0 | ok 0
    want 1 | nothing
    offer | nothing
    # what came before a change is gone, and before any other request it isn't
    send 07 | ok 1
    ask GETCONFIGSETUP | ok 1 01
    ask SETALT1SETUP | stall 0
    want 1 | ok 1 07
    send 08 | ok 1
    ask SETCONFIGSETUP | ok 0
    want 1 | nothing
    send 09 | ok 1
    ask SETALT0SETUP | ok 0
    want 1 | nothing
    send 0a | ok 1
    ask HALTOUTSETUP | ok 0
    send 0b | stall 0
    want 1 | ok 1 0a
    ask PORTRESETSETUP | ok 0
    want 1 | stall 0
";

fn address(byte: u8) -> Result<EpAddr, Fail>
    ensures { IfOk result (λ ep. ep ≡ byte) }
{
    Ok(EpAddr::new(byte).ok_or("no address")?)
}

fn control(alloc: Global, setup: Setup) -> Result<Transfer, Fail>
    ensures { IfOk result IsTransfer }
{
    let body = Bytes::new(alloc);
    if setup.kind < 0x80 {
        let ep = address(0x00)?;
        return Ok(Transfer {
            ep,
            setup: Some(setup),
            wanted: 0,
            body,
        });
    }
    let ep = address(0x80)?;
    Ok(Transfer {
        ep,
        setup: Some(setup),
        wanted: 64,
        body,
    })
}

fn wanted(alloc: Global, wanted: u32) -> Result<Transfer, Fail>
    ensures { IfOk result IsTransfer }
{
    Ok(Transfer {
        ep: address(0x81)?,
        setup: None,
        wanted,
        body: Bytes::new(alloc),
    })
}

fn sent(body: Bytes) -> Result<Transfer, Fail>
    ensures { IfOk result IsTransfer }
{
    let wanted = u32::try_from(body.len())?;
    Ok(Transfer {
        ep: address(0x01)?,
        setup: None,
        wanted,
        body,
    })
}

// The outcome that a packet would be.
fn of_packet(packet: Option<StreamPacket>) -> Option<Outcome> {
    let StreamPacket { status, body } = packet?;
    let done = u32::try_from(body.len()).ok()?;
    Some(Outcome { status, done, body })
}

// The transfer that an act is.
fn transfer(names: &Names, act: &str) -> Result<Transfer, Fail>
    ensures { IfOk result IsTransfer }
{
    let (name, words) = act.split_once(' ').unwrap_or((act, ""));
    match name {
        "ask" => control(names.alloc, names.setup(words)?),
        "send" => sent(names.bytes(words)?),
        _ => wanted(names.alloc, words.parse()?),
    }
}

fn done<G: Gadget>(names: &Names, gadget: &mut G, act: &str) -> Result<Option<Outcome>, Fail> {
    if act == "offer" {
        return Ok(of_packet(gadget.offer(names.alloc, address(0x81)?)?));
    }
    Ok(gadget.perform(names.alloc, &transfer(names, act)?)?)
}

fn status_name(status: UsbStatus) -> &'static str {
    match status {
        UsbStatus::Success => "ok",
        UsbStatus::Stall => "stall",
        _ => "another",
    }
}

/// Whether this came of an act.
fn is_so(names: &Names, outcome: &Option<Outcome>, came: &str) -> Result<bool, Memory> {
    let Some(outcome) = outcome else {
        return Ok(came == "nothing");
    };
    let (status, rest) = came.split_once(' ').unwrap_or((came, ""));
    let (done, given) = rest.split_once(' ').unwrap_or((rest, ""));
    Ok(
        status_name(outcome.status) == status
            && done.parse() == Ok(outcome.done)
            && outcome.body.as_slice() == names.bytes(given)?.as_slice(),
    )
}

/// A device, as a client has it.
#[derive(Drop)]
struct Attached<G: Gadget> {
    gadget: G,
}

impl<G: Gadget> GoesByRows for Attached<G> {
    fn goes(&mut self, names: &Names, row: &str) -> Result<bool, Fail> {
        let (act, came) = row.split_once(" | ").unwrap_or((row, ""));
        Ok(is_so(names, &done(names, &mut self.gadget, act)?, came)?)
    }
}

#[test]
fn a_keyboard_presses_the_keys_in_turn(rt: HostRuntime) -> Result<(), Fail> {
    let gadget = Keyboard::make(rt.alloc())?;
    goes_by(&rt, rt.alloc(), Attached { gadget }, KEYBOARD)
}

#[test]
fn a_tone_sounds_in_its_second_setting(rt: HostRuntime) -> Result<(), Fail> {
    let gadget = Tone::make(rt.alloc())?;
    goes_by(&rt, rt.alloc(), Attached { gadget }, TONE)
}

#[test]
fn a_loop_gives_back_what_came(rt: HostRuntime) -> Result<(), Fail> {
    let gadget = Loopback::make(rt.alloc())?;
    goes_by(&rt, rt.alloc(), Attached { gadget }, LOOP)
}
