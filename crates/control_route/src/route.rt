//! The route of a setup.

ghost use Rattle.std.specs.Prelude.{◌≡◌, ◌&&◌, if◌then◌else◌};
ghost use Rattle.control_route.specs.Routes.{route_of, has_no_data, is_byte};

use usb_base::Setup;
use usb_base::request::{
    FROM_DEVICE, FROM_INTERFACE, GET_CONFIGURATION, GET_INTERFACE, PORT_RESET, SET_ADDRESS,
    SET_CONFIGURATION, SET_FEATURE, SET_INTERFACE, TO_DEVICE, TO_INTERFACE, TO_PORT,
};

/// What the gateway does with a control transfer. Configurations, interfaces and alternate settings are kept
/// by the host that has the device, so it is asked to change them by packets of their own (usbredir protocol
/// description 0.7, usb_redir_set_configuration to usb_redir_alt_setting_status, and usb_redir_reset).
#[derive(Clone, Copy)]
pub enum Route {
    /// SET_ADDRESS: it succeeds, and nothing is sent. The host's own bus has given the device its address.
    Local,
    /// SET_CONFIGURATION, with the bConfigurationValue.
    SetConfig(u8),
    /// GET_CONFIGURATION.
    GetConfig,
    /// SET_INTERFACE.
    SetAlt { interface: u8, alt: u8 },
    /// GET_INTERFACE, with the interface's number.
    GetAlt(u8),
    /// SetPortFeature of PORT_RESET, by which a client asks for the device's reset.
    Reset,
    /// Any other control transfer: the device itself has it.
    Plain,
    /// One of these requests with a value that it can't have.
    Bad,
}

/// The route of a setup.
#[tactic(auto, unfolding(crate::specs::Routes::route_of))]
pub fn route_of(setup: &Setup) -> Route
    ensures { result ≡ route_of setup.now }
{
    match (setup.kind, setup.request) {
        (TO_DEVICE, SET_ADDRESS) => without_data(setup, Route::Local),
        (TO_DEVICE, SET_CONFIGURATION) => set_configuration(setup),
        (FROM_DEVICE, GET_CONFIGURATION) => Route::GetConfig,
        (TO_INTERFACE, SET_INTERFACE) => set_interface(setup),
        (FROM_INTERFACE, GET_INTERFACE) => get_interface(setup),
        (TO_PORT, SET_FEATURE) if setup.value == PORT_RESET => without_data(setup, Route::Reset),
        _ => Route::Plain,
    }
}

// This route, of a request that must have no data stage; `Bad` where it has one.
fn without_data(setup: &Setup, route: Route) -> Route
    ensures { result ≡ (if has_no_data setup.now then route else Route.Bad) }
{
    if setup.length == 0 { route } else { Route::Bad }
}

fn set_configuration(setup: &Setup) -> Route
    ensures { result ≡ (if has_no_data setup.now && is_byte setup.now.value then Route.SetConfig setup.now.value else Route.Bad) }
{
    match u8::try_from(setup.value) {
        Ok(configuration) => without_data(setup, Route::SetConfig(configuration)),
        Err(_) => Route::Bad,
    }
}

fn set_interface(setup: &Setup) -> Route
    ensures { result ≡ (if has_no_data setup.now && is_byte setup.now.index && is_byte setup.now.value then Route.SetAlt setup.now.index setup.now.value else Route.Bad) }
{
    match (u8::try_from(setup.index), u8::try_from(setup.value)) {
        (Ok(interface), Ok(alt)) => without_data(setup, Route::SetAlt { interface, alt }),
        _ => Route::Bad,
    }
}

fn get_interface(setup: &Setup) -> Route
    ensures { result ≡ (if is_byte setup.now.index then Route.GetAlt setup.now.index else Route.Bad) }
{
    match u8::try_from(setup.index) {
        Ok(interface) => Route::GetAlt(interface),
        Err(_) => Route::Bad,
    }
}
