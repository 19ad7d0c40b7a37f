//! The requests that a device answers.

ghost use Rattle.std.specs.Prelude.{◌≡◌};
ghost use Rattle.chapter9.specs.Requests.{request_of};

use usb_base::Setup;
use usb_base::request::{
    CLEAR_FEATURE, ENDPOINT_HALT, FROM_DEVICE, FROM_ENDPOINT, FROM_INTERFACE, GET_CONFIGURATION,
    GET_DESCRIPTOR, GET_INTERFACE, GET_STATUS, PORT_RESET, SET_ADDRESS, SET_CONFIGURATION,
    SET_FEATURE, SET_INTERFACE, TO_DEVICE, TO_ENDPOINT, TO_INTERFACE, TO_PORT,
};

/// A request whose data go to the host. It leaves the device's state as it is.
#[derive(Clone, Copy)]
pub enum ControlRead {
    /// GET_STATUS of the device (USB 2.0, 9.4.5).
    DeviceStatus,
    /// GET_STATUS of an interface.
    InterfaceStatus,
    /// GET_STATUS of an endpoint: whether it is halted.
    EndpointStatus,
    /// GET_DESCRIPTOR (9.4.3).
    GetDescriptor,
    /// GET_CONFIGURATION (9.4.2).
    GetConfiguration,
    /// GET_INTERFACE (9.4.4): the alternate setting.
    GetInterface,
}

/// A request without data. All but SET_ADDRESS can change the device's state.
#[derive(Clone, Copy)]
pub enum ControlWrite {
    /// CLEAR_FEATURE of an endpoint's halt (USB 2.0, 9.4.1).
    ClearHalt,
    /// SET_FEATURE of an endpoint's halt (9.4.9).
    SetHalt,
    /// SET_ADDRESS (9.4.6). A device that is reached through a protocol has no use for its address.
    SetAddress,
    /// SET_CONFIGURATION (9.4.7).
    SetConfiguration,
    /// SET_INTERFACE (9.4.10): the alternate setting.
    SetInterface,
    /// SET_FEATURE of a hub's port (11.24.2.13), PORT_RESET: here it resets the device itself.
    ResetPort,
}

/// A request that a device answers.
#[derive(Clone, Copy)]
pub enum Request {
    Read(ControlRead),
    Write(ControlWrite),
}

/// The request of a setup, by its bmRequestType and bRequest, and where a feature is set or cleared by its
/// wValue. None where it is none of these, which a device refuses with a stall (USB 2.0, 9.2.7).
pub fn request_of(setup: &Setup) -> Option<Request>
    ensures { result ≡ request_of setup.now }
{
    let request = match (setup.kind, setup.request) {
        (FROM_DEVICE, GET_STATUS) => Request::Read(ControlRead::DeviceStatus),
        (FROM_INTERFACE, GET_STATUS) => Request::Read(ControlRead::InterfaceStatus),
        (FROM_ENDPOINT, GET_STATUS) => Request::Read(ControlRead::EndpointStatus),
        (FROM_DEVICE, GET_DESCRIPTOR) => Request::Read(ControlRead::GetDescriptor),
        (FROM_DEVICE, GET_CONFIGURATION) => Request::Read(ControlRead::GetConfiguration),
        (FROM_INTERFACE, GET_INTERFACE) => Request::Read(ControlRead::GetInterface),
        (TO_ENDPOINT, CLEAR_FEATURE) if setup.value == ENDPOINT_HALT => {
            Request::Write(ControlWrite::ClearHalt)
        }
        (TO_ENDPOINT, SET_FEATURE) if setup.value == ENDPOINT_HALT => {
            Request::Write(ControlWrite::SetHalt)
        }
        (TO_DEVICE, SET_ADDRESS) => Request::Write(ControlWrite::SetAddress),
        (TO_DEVICE, SET_CONFIGURATION) => Request::Write(ControlWrite::SetConfiguration),
        (TO_INTERFACE, SET_INTERFACE) => Request::Write(ControlWrite::SetInterface),
        (TO_PORT, SET_FEATURE) if setup.value == PORT_RESET => {
            Request::Write(ControlWrite::ResetPort)
        }
        _ => return None,
    };
    Some(request)
}
