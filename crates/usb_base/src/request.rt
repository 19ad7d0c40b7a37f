//! The requests of endpoint 0 that are known by name, as numbers in a setup: the standard ones (USB 2.0, 9.4), and the
//! reset of a hub's port (11.24.2.13).

ghost use Rattle.std.specs.Prelude.{◌≡◌};

// bmRequestType: the direction, the type and the recipient (USB 2.0, table 9-2; a port's, table 11-15).

/// bmRequestType: a standard request to the device, with no data or with data to it.
pub const TO_DEVICE: u8 = 0x00;
/// bmRequestType: a standard request to an interface, with no data or with data to it.
pub const TO_INTERFACE: u8 = 0x01;
/// bmRequestType: a standard request to an endpoint, with no data or with data to it.
pub const TO_ENDPOINT: u8 = 0x02;
/// bmRequestType: a standard request to the device, with data from it.
pub const FROM_DEVICE: u8 = 0x80;
/// bmRequestType: a standard request to an interface, with data from it.
pub const FROM_INTERFACE: u8 = 0x81;
/// bmRequestType: a standard request to an endpoint, with data from it.
pub const FROM_ENDPOINT: u8 = 0x82;
/// bmRequestType: a hub class request to a port, with no data.
pub const TO_PORT: u8 = 0x23;

// bRequest (USB 2.0, table 9-4).

/// bRequest: asks for the status of the recipient.
pub const GET_STATUS: u8 = 0;
/// bRequest: clears the feature in wValue.
pub const CLEAR_FEATURE: u8 = 1;
/// bRequest: sets the feature in wValue. A hub's SetPortFeature has the same number.
pub const SET_FEATURE: u8 = 3;
/// bRequest: gives the device the address in wValue.
pub const SET_ADDRESS: u8 = 5;
/// bRequest: asks for the descriptor that wValue names.
pub const GET_DESCRIPTOR: u8 = 6;
/// bRequest: asks for the value of the configuration.
pub const GET_CONFIGURATION: u8 = 8;
/// bRequest: chooses the configuration in wValue.
pub const SET_CONFIGURATION: u8 = 9;
/// bRequest: asks for the alternate setting of the interface in wIndex.
pub const GET_INTERFACE: u8 = 10;
/// bRequest: chooses the alternate setting in wValue of the interface in wIndex.
pub const SET_INTERFACE: u8 = 11;

// wValue, where a feature is set or cleared.

/// The feature selector of an endpoint's halt (USB 2.0, table 9-6).
pub const ENDPOINT_HALT: u16 = 0;
/// The feature selector of a port's reset (USB 2.0, table 11-17).
pub const PORT_RESET: u16 = 4;

/// A law: the numbers that definitions name are these.
pub fn request_numbers()
    ensures to_device { (TO_DEVICE ≡ 0x00) × (TO_INTERFACE ≡ 0x01) × (TO_ENDPOINT ≡ 0x02) }
    ensures from_device { (FROM_DEVICE ≡ 0x80) × (FROM_INTERFACE ≡ 0x81) × (FROM_ENDPOINT ≡ 0x82) }
    ensures features { (CLEAR_FEATURE ≡ 1) × (SET_FEATURE ≡ 3) × (ENDPOINT_HALT ≡ 0) }
    ensures port { (TO_PORT ≡ 0x23) × (PORT_RESET ≡ 4) }
    ensures descriptors { (GET_STATUS ≡ 0) × (SET_ADDRESS ≡ 5) × (GET_DESCRIPTOR ≡ 6) }
    ensures configurations { (GET_CONFIGURATION ≡ 8) × (SET_CONFIGURATION ≡ 9) }
    ensures interfaces { (GET_INTERFACE ≡ 10) × (SET_INTERFACE ≡ 11) }
{}
