//! Which requests change the device's interfaces, and which endpoints a change touches.

ghost use Rattle.std.specs.Prelude.{◌≡◌};
ghost use Rattle.redir_host.specs.device.Changes.{change_of, is_touched};

use crate::state::request::Form;
use control_route::{Route, touches};
use usb_base::{EpAddr, EpTable};

/// Whether a change touches an endpoint, by the table before it. None touches endpoint 0.
pub fn is_touched(route: &Route, table: &EpTable, ep: EpAddr) -> bool
    ensures { result ≡ is_touched route.now table.now ep }
{
    !ep.is_control() && touches(route, table.row(ep).interface)
}

/// The change that a request of this form is, if it is one. A control packet is none, whatever its setup.
pub fn change_of(form: Form) -> Option<Route>
    ensures { result ≡ change_of form }
{
    match form {
        Form::SetConfiguration { configuration } => Some(Route::SetConfig(configuration)),
        Form::SetAlt { interface, alt } => Some(Route::SetAlt { interface, alt }),
        Form::Control(_)
        | Form::Bulk { .. }
        | Form::Interrupt
        | Form::GetConfiguration
        | Form::GetAlt { .. } => None,
    }
}
