//! Requests on endpoint 0, laid out from the standard (USB 2.0, 9.4).

use crate::tests::laid_out::{GoesByRows, Names, goes_by};
use chapter9::{DescriptorSet, DevState, Parts, standard, walk};
use std::alloc::Global;
use std::test::Fail;
use usb_base::{Bytes, EpAddr, Memory, Outcome, Setup, Transfer, UsbStatus};

/// The state before, the setup, the state after, and what is given; or the state and a setup that is refused there. A
/// device is reset, or configured and ready, or so with its IN endpoint 1 halted.
const ROWS: &str = "
    # what is read
    reset GETDEVICESETUP reset DEVICE
    reset 8006000100000800 reset 12 01 00 02 00 00 00 40
    ready 8006000100000000 ready
    ready 800600020000ff00 ready CONFIGURATION
    ready 8006000200000900 ready 09 02 20 00 01 01 00 80 32
    ready 800600030000ff00 ready 04 03 09 04
    ready 800601030904ff00 ready NAME
    reset 8000000000000200 reset 00 00
    reset 8000000000000100 reset 00
    ready 8100000000000200 ready 00 00
    ready 8200000081000200 ready 00 00
    halted 8200000081000200 halted 01 00
    halted 8200000001000200 halted 00 00
    halted 8200000080000100 halted 00
    reset 8200000000000200 reset 00 00
    reset GETCONFIGSETUP reset 00
    ready 8008000000000200 ready 01
    ready 8008000000000000 ready
    ready GETALTSETUP ready 00
    # what is changed
    ready HALTINSETUP halted
    halted HALTINSETUP halted
    ready 0203000080000000 ready
    halted CLEARHALTINSETUP ready
    halted 0201000001000000 halted
    ready CLEARHALTINSETUP ready
    reset SETADDRESSSETUP reset
    reset SETCONFIGSETUP ready
    halted SETCONFIGSETUP ready
    halted CLEARCONFIGSETUP reset
    halted SETALT0SETUP ready
    halted PORTRESETSETUP reset
    # what is refused, and changes nothing
    ready 800602030904ff00 refused
    ready 8006010100001200 refused
    ready 8006000600000a00 refused
    ready 8106002200003f00 refused
    reset 8100000000000200 refused
    ready 8100000001000200 refused
    reset 8200000081000200 refused
    ready 8200000082000200 refused
    ready 8200000091000200 refused
    ready 8200000081010200 refused
    ready 0203010081000000 refused
    ready 0203000002000000 refused
    reset HALTINSETUP refused
    halted 0201010081000000 refused
    halted 0003010000000000 refused
    reset 0005070000000100 refused
    halted 0009020000000000 refused
    halted 0009010100000000 refused
    halted 0009010000000100 refused
    halted SETALT1SETUP refused
    halted 010b000100000000 refused
    halted 010b000001000000 refused
    halted 010b000000000100 refused
    reset SETALT0SETUP refused
    ready 810a000001000100 refused
    reset GETALTSETUP refused
    halted 2303080001000000 refused
    halted 2303040001000100 refused
    ready c001000000000400 refused
";

fn state_of(name: &str) -> DevState {
    DevState {
        configuration: if name == "reset" { 0 } else { 1 },
        alt: 0,
        halted: if name == "halted" { 0x2_0000 } else { 0 },
    }
}

fn descriptors(names: &Names) -> Result<DescriptorSet, Fail> {
    Ok(DescriptorSet {
        device: names.bytes("DEVICE")?.as_slice().try_into()?,
        config: names.bytes("CONFIGURATION")?,
        name: names.bytes("NAME")?,
    })
}

// The answer to a setup.
fn answer(
    alloc: Global,
    set: &DescriptorSet,
    parts: &Parts,
    state: &mut DevState,
    setup: Setup,
) -> Result<Outcome, Fail> {
    let ep = EpAddr::new(setup.kind / 0x80 * 0x80).ok_or("no address")?;
    let transfer = Transfer {
        ep,
        setup: Some(setup),
        wanted: 64,
        body: Bytes::new(alloc),
    };
    Ok(standard(alloc, set, parts, state, &transfer)?)
}

fn is_so(outcome: &Outcome, status: UsbStatus, given: &[u8]) -> bool {
    (outcome.status, outcome.done as usize) == (status, given.len())
        && outcome.body.as_slice() == given
}

// Whether an outcome is what a row says.
fn is_told(names: &Names, outcome: &Outcome, after: &str, given: &str) -> Result<bool, Memory> {
    if after == "refused" {
        return Ok(is_so(outcome, UsbStatus::Stall, &[]));
    }
    Ok(is_so(outcome, UsbStatus::Success, names.bytes(given)?.as_slice()))
}

// A device that answers by its descriptors.
#[derive(Drop)]
struct Described {
    set: DescriptorSet,
    parts: Parts,
}

impl GoesByRows for Described {
    // Whether a request gives what its row says, and leaves the state that it says.
    fn goes(&mut self, names: &Names, row: &str) -> Result<bool, Fail> {
        let (before, rest) = row.split_once(' ').unwrap_or((row, ""));
        let (asked, rest) = rest.split_once(' ').unwrap_or((rest, ""));
        let (after, given) = rest.split_once(' ').unwrap_or((rest, ""));
        let mut state = state_of(before);
        let outcome = answer(
            names.alloc,
            &self.set,
            &self.parts,
            &mut state,
            names.setup(asked)?,
        )?;
        let left = if after == "refused" { before } else { after };
        Ok(state == state_of(left) && is_told(names, &outcome, after, given)?)
    }
}

#[test]
fn what_requests_give_and_change_and_what_is_refused(rt: HostRuntime) -> Result<(), Fail> {
    let set = descriptors(&Names::new(rt.alloc())?)?;
    let parts = walk(rt.alloc(), set.config.as_slice())?;
    goes_by(&rt, rt.alloc(), Described { set, parts }, ROWS)
}
