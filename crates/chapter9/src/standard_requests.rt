//! What a device answers to a request on endpoint 0, and what the request changes.

ghost use Rattle.std.specs.Prelude.{◌≡◌, ◌<◌, ◌==◌, ◌&&◌, IsSome, OnOk, OnErr, IfOk, Some, None, option_copied, length, take, if◌then◌else◌};
ghost use Rattle.chapter9.specs.State.{is_configured};
ghost use Rattle.chapter9.specs.Standard.{changed_by, descriptor_of, given_by, halted, is_endpoint, is_setting, outcome_of, read_outcome, state_after, success};

use crate::outcome::{ended, stall, success};
use crate::part::Parts;
use crate::requests::{ControlRead, ControlWrite, Request, request_of};
use crate::state::DevState;
use crate::table::{class_of, table_of};
use std::alloc::Global;
use usb_base::{Bytes, EpAddr, EpKind, Memory, Outcome, Setup, Transfer, UsbStatus};

/// wValue of GET_DESCRIPTOR: the type is the high byte, the index the low one (USB 2.0, 9.4.3).
const DEVICE: u16 = 0x0100;

const CONFIGURATION: u16 = 0x0200;

const LANGUAGES: u16 = 0x0300;

const NAME: u16 = 0x0301;

/// String descriptor 0 (USB 2.0, 9.6.7): the one language is American English.
const ENGLISH: [u8; 4] = [4, 3, 0x09, 0x04];

/// The descriptors of a device with one configuration, whose value is 1, of one interface, whose number is 0.
#[derive(Drop)]
pub struct DescriptorSet {
    /// The device descriptor (USB 2.0, 9.6.1).
    pub device: [u8; 18],
    /// The configuration and all its descriptors (9.6.3).
    pub config: Bytes,
    /// String descriptor 1 (9.6.7).
    pub name: Bytes,
}

/// Answers a request on endpoint 0. What is given is cut to wLength and to what the transfer wants. For want
/// of memory, which only a request that gives bytes takes, the state stands.
pub fn standard(
    alloc: Global,
    set: &DescriptorSet,
    parts: &Parts,
    state: &mut DevState,
    transfer: &Transfer,
) -> Result<Outcome, Memory>
    requires { IsSome transfer.now.setup }
    ensures outcome { IfOk result (λ outcome. outcome ≡ outcome_of set.now parts.now state.old transfer.now) }
    ensures state { OnOk result (state.new ≡ state_after parts.now state.old transfer.now) }
    ensures err { OnErr result (state.new ≡ state.old) }
    ensures thrifty { OnErr result (0 < length (outcome_of set.now parts.now state.old transfer.now).body) }
{
    let setup = transfer.setup.unwrap();
    match request_of(&setup) {
        Some(Request::Read(read)) => {
            answer(alloc, set, parts, state, &setup, read, transfer.wanted)
        }
        Some(Request::Write(write)) => {
            let Some(changed) = changed_by(parts, state, &setup, write) else {
                return Ok(stall(alloc));
            };
            *state = changed;
            Ok(ended(alloc, UsbStatus::Success))
        }
        None => Ok(stall(alloc)),
    }
}

/// Gives what a request reads.
fn answer(
    alloc: Global,
    set: &DescriptorSet,
    parts: &Parts,
    state: &DevState,
    setup: &Setup,
    read: ControlRead,
    wanted: u32,
) -> Result<Outcome, Memory>
    ensures outcome { IfOk result (λ outcome. outcome ≡ read_outcome setup.now.length wanted (given_by set.now parts.now state.now setup.now read)) }
    ensures thrifty { OnErr result (0 < length (read_outcome setup.now.length wanted (given_by set.now parts.now state.now setup.now read)).body) }
{
    let most = wanted.min(u32::from(setup.length));
    let configured = state.is_configured();
    match read {
        ControlRead::DeviceStatus => given(alloc, &[0, 0], most),
        ControlRead::InterfaceStatus if configured && setup.index == 0 => {
            given(alloc, &[0, 0], most)
        }
        ControlRead::EndpointStatus => match endpoint_of(parts, state, setup.index) {
            Some(ep) => given(alloc, &[state.halted_bit(ep), 0], most),
            None => Ok(stall(alloc)),
        },
        ControlRead::GetDescriptor => match descriptor_of(set, setup.value) {
            Some(descriptor) => given(alloc, descriptor, most),
            None => Ok(stall(alloc)),
        },
        ControlRead::GetConfiguration => given(alloc, &[state.configuration], most),
        ControlRead::GetInterface if configured && setup.index == 0 => {
            given(alloc, &[state.alt], most)
        }
        ControlRead::InterfaceStatus | ControlRead::GetInterface => Ok(stall(alloc)),
    }
}

/// The state after a request without data, if that can be carried out.
fn changed_by(
    parts: &Parts,
    state: &DevState,
    setup: &Setup,
    write: ControlWrite,
) -> Option<DevState>
    ensures { result ≡ changed_by parts.now state.now setup.now write }
{
    let mut changed = *state;
    match write {
        ControlWrite::ClearHalt => changed.clear_halt(endpoint_of(parts, state, setup.index)?),
        ControlWrite::SetHalt => halt(&mut changed, endpoint_of(parts, state, setup.index)?),
        ControlWrite::SetAddress if setup.length == 0 => {}
        ControlWrite::SetConfiguration if setup.length == 0 && setup.value < 2 => {
            changed = DevState {
                configuration: setup.value as u8,
                alt: 0,
                halted: 0,
            };
        }
        ControlWrite::SetInterface if setup.length == 0 && is_setting(parts, state, setup) => {
            changed.alt = setup.value as u8;
            changed.halted = 0;
        }
        ControlWrite::ResetPort if setup.length == 0 => changed = DevState::unconfigured(),
        ControlWrite::SetAddress
        | ControlWrite::SetConfiguration
        | ControlWrite::SetInterface
        | ControlWrite::ResetPort => return None,
    }
    Some(changed)
}

/// The endpoint with this address, if the device has one.
fn endpoint_of(parts: &Parts, state: &DevState, address: u16) -> Option<EpAddr>
    ensures { result ≡ (if is_endpoint parts.now state.now address then Some address else None) }
{
    let byte = u8::try_from(address).ok()?;
    let ep = EpAddr::new(byte)?;
    if table_of(parts, state).row(ep).kind == EpKind::Invalid {
        return None;
    }
    Some(ep)
}

/// Whether the setup names interface 0 and a setting that it has.
fn is_setting(parts: &Parts, state: &DevState, setup: &Setup) -> bool
    ensures { result ≡ (is_configured state.now && setup.now.index == 0 && is_setting parts.now setup.now.value) }
{
    if !state.is_configured() || setup.index != 0 || setup.value > 255 {
        return false;
    }
    class_of(parts, setup.value as u8).is_some()
}

fn halt(state: &mut DevState, ep: EpAddr)
    ensures { state.new ≡ halted state.old ep }
{
    if ep.index() % 16 != 0 {
        state.halt(ep);
    }
}

/// The bytes of a descriptor, by its type and index.
fn descriptor_of(set: &DescriptorSet, value: u16) -> Option<&[u8]>
    ensures { option_copied result ≡ descriptor_of set.now value }
{
    match value {
        DEVICE => Some(&set.device),
        CONFIGURATION => Some(set.config.as_slice()),
        LANGUAGES => Some(&ENGLISH),
        NAME => Some(set.name.as_slice()),
        _ => None,
    }
}

/// At most so many of the bytes.
fn given(alloc: Global, bytes: &[u8], most: u32) -> Result<Outcome, Memory>
    ensures outcome { IfOk result (λ outcome. outcome ≡ success (take most bytes.now)) }
    ensures thrifty { OnErr result (0 < length (take most bytes.now)) }
{
    let len = bytes.len().min(most as usize);
    let mut body = Bytes::new(alloc);
    if len > 0 {
        body.append(&bytes[..len])?;
    }
    Ok(success(body))
}
