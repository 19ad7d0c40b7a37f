//! The refusals of both sides.

ghost use Rattle.std.specs.Prelude.{◌≡◌, ℕ, None};
ghost use Rattle.usb_base.specs.declared.side.Side.TheVariants.{Client, Host};
ghost use Rattle.usb_base.specs.Number.{capped};
ghost use Rattle.gate_history.specs.state.Sides.{refusal};

use usb_base::{Reason, Refusal, Side};

/// A client is refused at this place of its stream.
pub fn client_refusal(place: u64, reason: Reason) -> Refusal
    ensures value { (at : ℕ) → place ≡ capped at → result ≡ refusal Client at reason }
    ensures side { result.side ≡ Client }
{
    refusal_at(Side::Client, place, reason)
}

/// The host is refused at this place of its stream.
pub fn host_refusal(place: u64, reason: Reason) -> Refusal
    ensures value { (at : ℕ) → place ≡ capped at → result ≡ refusal Host at reason }
    ensures side { result.side ≡ Host }
{
    refusal_at(Side::Host, place, reason)
}

/// A refusal of which nothing is kept yet.
fn refusal_at(side: Side, place: u64, reason: Reason) -> Refusal
    ensures { result ≡ record { side = side; place = place; reason = reason; kept = None } }
{
    Refusal {
        side,
        place,
        reason,
        kept: None,
    }
}
