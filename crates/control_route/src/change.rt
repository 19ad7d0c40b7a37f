//! The routes that change the device's interfaces.

ghost use Rattle.std.specs.Prelude.{◌≡◌};
ghost use Rattle.control_route.specs.Changes.{is_change, touches};

use crate::route::Route;

/// Whether the device's interfaces and endpoints may be others once it is carried out.
pub fn is_change(route: &Route) -> bool
    ensures { result ≡ is_change route.now }
{
    matches!(
        route,
        Route::SetConfig(_) | Route::SetAlt { .. } | Route::Reset
    )
}

/// Whether it ends the transfers of this interface's endpoints.
pub fn touches(route: &Route, interface: u8) -> bool
    ensures { result ≡ touches route.now interface }
{
    match route {
        Route::SetConfig(_) | Route::Reset => true,
        Route::SetAlt { interface: its, .. } => *its == interface,
        _ => false,
    }
}
