//! The transfers of requests that have packets of their own: configurations, alternate settings and resets (USB 2.0,
//! 9.4; 11.24.2.13).

ghost use Rattle.std.specs.Prelude.{◌≡◌, []};
ghost use Rattle.control_route.specs.declared.route.Route.TheVariants as route;
ghost use Rattle.model_device.specs.Submit.{control_transfer};
ghost use Rattle.redir_host.specs.guest.Asking.{routed};

use std::alloc::Global;
use usb_base::request::{
    FROM_DEVICE, FROM_INTERFACE, GET_CONFIGURATION, GET_INTERFACE, PORT_RESET, SET_CONFIGURATION,
    SET_FEATURE, SET_INTERFACE, TO_DEVICE, TO_INTERFACE, TO_PORT,
};
use usb_base::{Bytes, EpAddr, Setup, Transfer};

/// SET_CONFIGURATION.
pub fn set_configuration(alloc: Global, configuration: u8) -> Transfer
    ensures { result ≡ routed (route.SetConfig configuration) }
{
    let value = u16::from(configuration);
    transfer_of(alloc, TO_DEVICE, SET_CONFIGURATION, value, 0, 0)
}

/// GET_CONFIGURATION.
pub fn get_configuration(alloc: Global) -> Transfer
    ensures { result ≡ routed route.GetConfig }
{
    transfer_of(alloc, FROM_DEVICE, GET_CONFIGURATION, 0, 0, 1)
}

/// SET_INTERFACE.
pub fn set_alt(alloc: Global, interface: u8, alt: u8) -> Transfer
    ensures { result ≡ routed (route.SetAlt interface alt) }
{
    let value = u16::from(alt);
    let index = u16::from(interface);
    transfer_of(alloc, TO_INTERFACE, SET_INTERFACE, value, index, 0)
}

/// GET_INTERFACE.
pub fn get_alt(alloc: Global, interface: u8) -> Transfer
    ensures { result ≡ routed (route.GetAlt interface) }
{
    let index = u16::from(interface);
    transfer_of(alloc, FROM_INTERFACE, GET_INTERFACE, 0, index, 1)
}

/// SetPortFeature of PORT_RESET, the reset of the device.
pub fn reset(alloc: Global) -> Transfer
    ensures { result ≡ routed route.Reset }
{
    transfer_of(alloc, TO_PORT, SET_FEATURE, PORT_RESET, 0, 0)
}

/// The transfer of a setup of these fields, in their order (USB 2.0, table 9-2), that sends no data to the device.
fn transfer_of(
    alloc: Global,
    kind: u8,
    request: u8,
    value: u16,
    index: u16,
    length: u16,
) -> Transfer
    ensures { result ≡ control_transfer (record { kind = kind; request = request; value = value; index = index; length = length }) length [] }
{
    let setup = Setup {
        kind,
        request,
        value,
        index,
        length,
    };
    Transfer {
        ep: EpAddr::control(setup.is_in()),
        setup: Some(setup),
        wanted: u32::from(length),
        body: Bytes::new(alloc),
    }
}
