//! Which endpoints a device has in a state, and of which class its interface is.

ghost use Rattle.std.specs.Prelude.{◌≡◌, None};
ghost use Rattle.chapter9.specs.Table.{class_at, class_of, endpoints_after, interface_after, endpoint_rows, table_of, with_row, with_rows};

use crate::part::{Part, Parts};
use crate::state::DevState;
use usb_base::{EpAddr, EpKind, EpRow, EpTable};

/// The index of endpoint 0 to the device, which every device has (USB 2.0, 5.5).
const CONTROL_OUT: usize = 0;

/// The index of endpoint 0 from the device.
const CONTROL_IN: usize = 16;

/// The row of each of them.
const CONTROL: EpRow = EpRow {
    kind: EpKind::Control,
    interval: 0,
    interface: 0,
    max_packet: 64,
};

/// bInterfaceClass, bInterfaceSubClass and bInterfaceProtocol of an interface (USB 2.0, table 9-12).
#[derive(Clone, Copy, PartialEq, Eq)]
pub struct InterfaceClass {
    pub class: u8,
    pub subclass: u8,
    pub protocol: u8,
}

/// The endpoints of a device: endpoint 0, and where a configuration is set those of the current alternate
/// setting. Of two with one address the later counts, and one with number 0 counts for nothing.
pub fn table_of(parts: &Parts, state: &DevState) -> EpTable
    ensures { result ≡ table_of parts.now state.now }
{
    let mut table = EpTable::none();
    table.rows[CONTROL_OUT] = CONTROL;
    table.rows[CONTROL_IN] = CONTROL;
    if state.is_configured() {
        add_setting(&mut table, parts, state.alt);
    }
    table
}

/// Adds the endpoints of an alternate setting: those after an interface descriptor with it, up to the next one.
fn add_setting(table: &mut EpTable, parts: &Parts, alt: u8)
    ensures { table.new.rows ≡ with_rows table.old.rows (endpoints_after alt None parts.now) }
{
    let mut interface = None;
    for part in parts.as_slice() {
        add_endpoint(table, interface, part);
        interface = interface_after(alt, interface, part);
    }
}

/// Adds the endpoint of a descriptor, where that is an endpoint's and stands behind one of this interface.
fn add_endpoint(table: &mut EpTable, interface: Option<u8>, part: &Part)
    ensures { table.new.rows ≡ with_rows table.old.rows (endpoint_rows part.now interface) }
{
    let Some(interface) = interface else {
        return;
    };
    if let Part::Endpoint {
        ep,
        kind,
        max_packet,
        interval,
    } = *part
    {
        let row = EpRow {
            kind,
            interval,
            interface,
            max_packet,
        };
        put(table, ep, row);
    }
}

/// The interface whose alternate setting the endpoints behind a descriptor belong to, where it is the wanted one.
fn interface_after(alt: u8, before: Option<u8>, part: &Part) -> Option<u8>
    ensures { result ≡ interface_after alt before part.now }
{
    match *part {
        Part::Interface {
            number,
            alt: other,
            ..
        } => (other == alt).then_some(number),
        Part::Config { .. } | Part::Endpoint { .. } | Part::Other { .. } => before,
    }
}

fn put(table: &mut EpTable, ep: EpAddr, row: EpRow)
    ensures { table.new.rows ≡ with_row ep row table.old.rows }
{
    let index = ep.index();
    if index % 16 != 0 {
        table.rows[index] = row;
    }
}

/// The class of the first interface descriptor with this alternate setting, or None where there is no such
/// setting.
pub fn class_of(parts: &Parts, alt: u8) -> Option<InterfaceClass>
    ensures { result ≡ class_of alt parts.now }
{
    for part in parts.as_slice() {
        if let Some(class) = class_at(alt, part) {
            return Some(class);
        }
    }
    None
}

/// The class of a descriptor, if it is an interface's with this alternate setting.
fn class_at(alt: u8, part: &Part) -> Option<InterfaceClass>
    ensures { result ≡ class_at alt part.now }
{
    match *part {
        Part::Interface {
            alt: other,
            class,
            subclass,
            protocol,
            ..
        } if other == alt => Some(InterfaceClass {
            class,
            subclass,
            protocol,
        }),
        _ => None,
    }
}
