//! Configurations of real devices, and where a wrong one is wrong (USB 2.0, 9.6).

use crate::tests::laid_out::{GoesByRows, Names, goes_by};
use chapter9::{DevState, InterfaceClass, WalkError, class_of, table_of, walk};
use std::alloc::Global;
use std::test::Fail;
use usb_base::{EpAddr, EpKind, EpRow, Memory};

const BOOT_KEYBOARD: [u8; 34] = [
    9, 2, 34, 0, 1, 1, 0, 0xA0, 50, // bus-powered, wakes the host
    9, 4, 0, 0, 1, 3, 1, 1, 0, // human interface, boot, keyboard
    9, 0x21, 0x11, 1, 0, 1, 0x22, 63, 0, // its report descriptor has 63 bytes
    7, 5, 0x81, 3, 8, 0, 10,
];

const MASS_STORAGE: [u8; 32] = [
    9, 2, 32, 0, 1, 1, 0, 0x80, 100, //
    9, 4, 0, 0, 2, 8, 6, 0x50, 0, // SCSI over bulk only
    7, 5, 0x81, 2, 0, 2, 0, //
    7, 5, 0x02, 2, 0, 2, 0,
];

// Sound of two channels, of 16 bits in one setting and of 24 in another (audio device class 1.0, appendix B).
const SOUND_CARD: [u8; 143] = [
    9, 2, 143, 0, 2, 1, 0, 0x80, 50, //
    9, 4, 0, 0, 0, 1, 1, 0, 0, // control
    9, 0x24, 1, 0, 1, 30, 0, 1, 1, //
    12, 0x24, 2, 1, 1, 1, 0, 2, 3, 0, 0, 0, //
    9, 0x24, 3, 2, 1, 3, 0, 1, 0, //
    9, 4, 1, 0, 0, 1, 2, 0, 0, // streaming, silent
    9, 4, 1, 1, 1, 1, 2, 0, 0, // 16 bits
    7, 0x24, 1, 1, 1, 1, 0, //
    11, 0x24, 2, 1, 2, 2, 16, 1, 0x80, 0xBB, 0, //
    9, 5, 0x01, 9, 192, 0, 1, 0, 0, //
    7, 0x25, 1, 1, 0, 0, 0, //
    9, 4, 1, 2, 1, 1, 2, 0, 0, // 24 bits
    7, 0x24, 1, 1, 1, 1, 0, //
    11, 0x24, 2, 1, 2, 3, 24, 1, 0x80, 0xBB, 0, //
    9, 5, 0x01, 9, 0x20, 1, 1, 0, 0, //
    7, 0x25, 1, 1, 0, 0, 0,
];

/// The configuration, the alternate setting and an endpoint; how many parts the configuration has, and of the endpoint
/// the kind, the largest packet, the interval and the interface.
const ENDPOINTS: &str = "
    keyboard 0 81 | 4 interrupt 8 10 0
    storage 0 81 | 4 bulk 512 0 0
    storage 0 02 | 4 bulk 512 0 0
    storage 0 01 | 4 none 0 0 0
    sound 0 01 | 16 none 0 0 0
    sound 1 01 | 16 isochronous 192 1 1
    sound 2 01 | 16 isochronous 288 1 1
    sound 3 01 | 16 none 0 0 0
    sound 2 00 | 16 control 64 0 0
    sound 2 80 | 16 control 64 0 0
    loop 0 81 | 4 bulk 512 0 0
";

fn configuration(name: &str) -> &'static [u8] {
    match name {
        "keyboard" => &BOOT_KEYBOARD,
        "storage" => &MASS_STORAGE,
        "sound" => &SOUND_CARD,
        _ => &LOOP,
    }
}

fn kind_name(kind: EpKind) -> &'static str {
    match kind {
        EpKind::Control => "control",
        EpKind::Iso => "isochronous",
        EpKind::Bulk => "bulk",
        EpKind::Interrupt => "interrupt",
        EpKind::Invalid => "none",
    }
}

// How many parts a configuration has, and the row of an endpoint in a setting.
fn row_of(alloc: Global, blob: &[u8], alt: u8, byte: u8) -> Result<(usize, EpRow), Fail> {
    let parts = walk(alloc, blob)?;
    let state = DevState {
        configuration: 1,
        alt,
        halted: 0,
    };
    let ep = EpAddr::new(byte).ok_or("no address")?;
    Ok((parts.len(), table_of(&parts, &state).row(ep)))
}

// The same as a row tells it.
fn told_of(alloc: Global, asked: &str) -> Result<String, Fail> {
    let (name, rest) = asked.split_once(' ').unwrap_or((asked, ""));
    let (alt, ep) = rest.split_once(' ').unwrap_or((rest, ""));
    let blob = configuration(name);
    let (count, row) = row_of(alloc, blob, alt.parse()?, u8::from_str_radix(ep, 16)?)?;
    let kind = kind_name(row.kind);
    let EpRow {
        max_packet,
        interval,
        interface,
        ..
    } = row;
    Ok(format!(in alloc; "{count} {kind} {max_packet} {interval} {interface}")?)
}

// The endpoints of configurations.
#[derive(Drop)]
struct Endpoints;

impl GoesByRows for Endpoints {
    fn goes(&mut self, names: &Names, row: &str) -> Result<bool, Fail> {
        let (asked, told) = row.split_once(" | ").unwrap_or((row, ""));
        Ok(told_of(names.alloc, asked)?.as_str() == told)
    }
}

#[test]
fn endpoints_of_real_configurations(rt: HostRuntime) -> Result<(), Fail> {
    goes_by(&rt, rt.alloc(), Endpoints, ENDPOINTS)
}

const STREAMING: InterfaceClass = InterfaceClass {
    class: 1,
    subclass: 2,
    protocol: 0,
};

#[test]
fn the_class_of_an_alternate_setting(rt: HostRuntime) -> Result<(), Fail> {
    let sound = walk(rt.alloc(), &SOUND_CARD)?;
    for (alt, wanted) in [(2, Some(STREAMING)), (3, None)] {
        assert!(rt; class_of(&sound, alt) == wanted);
    }
    Ok(())
}

// A bulk endpoint each way.
const LOOP: [u8; 32] = [
    9, 2, 32, 0, 1, 1, 0, 0x80, 50, //
    9, 4, 0, 0, 2, 0xFF, 0, 0, 0, //
    7, 5, 0x01, 2, 0, 2, 0, //
    7, 5, 0x81, 2, 0, 2, 0,
];

/// A byte of the loop's configuration, by its place, and its new value in hexadecimal; the place of the first descriptor
/// that is wrong then, or that none is.
const WRONG: &str = "
    0 08 | 0
    0 21 | 0
    0 12 | none
    1 04 | 0
    2 1f | 0
    3 01 | 0
    9 00 | 9
    9 01 | 9
    9 08 | 9
    9 18 | 9
    10 02 | none
    10 05 | none
    18 00 | 18
    18 06 | 18
    18 0e | none
    18 0f | 18
    20 11 | 18
    20 8f | none
    25 08 | 25
    25 06 | 25
";

fn wrong_place(alloc: Global, blob: &[u8]) -> Result<Option<usize>, Memory> {
    match walk(alloc, blob) {
        Ok(_) => Ok(None),
        Err(WalkError::Bad { place }) => Ok(Some(place)),
        Err(WalkError::Memory(memory)) => Err(memory),
    }
}

// The loop's configuration with another byte at a place.
fn with_byte(place: usize, byte: u8) -> [u8; 32] {
    let mut blob = LOOP;
    if let Some(wrong) = blob.get_mut(place) {
        *wrong = byte;
    }
    blob
}

// One byte that is changed.
#[derive(Drop)]
struct Changed;

impl GoesByRows for Changed {
    fn goes(&mut self, names: &Names, row: &str) -> Result<bool, Fail> {
        let (change, told) = row.split_once(" | ").unwrap_or((row, ""));
        let (place, byte) = change.split_once(' ').unwrap_or((change, ""));
        let blob = with_byte(place.parse()?, u8::from_str_radix(byte, 16)?);
        match wrong_place(names.alloc, &blob)? {
            Some(place) => Ok(told.parse() == Ok(place)),
            None => Ok(told == "none"),
        }
    }
}

#[test]
fn one_wrong_byte_is_found_at_its_descriptor(rt: HostRuntime) -> Result<(), Fail> {
    goes_by(&rt, rt.alloc(), Changed, WRONG)
}

#[test]
fn a_configuration_that_is_cut_is_wrong_at_its_start(rt: HostRuntime) -> Result<(), Fail> {
    assert!(rt; wrong_place(rt.alloc(), &LOOP[..31])? == Some(0));
    Ok(())
}
