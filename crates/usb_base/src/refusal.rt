//! Refusals, and the line that tells one.

ghost use Rattle.std.specs.Prelude.{◌≡◌, ◌++◌, IfOk, OnOk, OnErr, string_bytes};

use crate::list::Bytes;
use crate::memory::Memory;
use crate::reason::Reason;
use crate::side::Side;
use std::alloc::Global;

/// A side is refused: nothing of it is read from a place on.
#[derive(Clone, Copy)]
pub struct Refusal {
    pub side: Side,
    /// In bytes from the first of that side's stream on; it stands still at `u64::MAX`.
    pub place: u64,
    /// What is wrong there.
    pub reason: Reason,
    /// Of a `Mismatch` what was expected, and what came: the type of an answer, else its endpoint, else its length, of
    /// which at most so much was expected.
    pub kept: Option<(u64, u64)>,
}

impl Refusal {
    ghost use Rattle.usb_base.specs.Refusal.{refusal_line};

    /// Appends the refusal's line, `! SIDE PLACE NUMBER NAME` with the kept values, and its LF.
    pub fn line(&self, alloc: Global, out: &mut Bytes) -> Result<(), Memory>
        ensures ok { OnOk result (out.new ≡ out.old ++ refusal_line self.now) }
        ensures err { OnErr result (out.new ≡ out.old) }
    {
        let text = self.text(alloc)?;
        out.append(text.as_bytes())
    }

    fn text(&self, alloc: Global) -> Result<String, Memory>
        ensures { IfOk result (λ text. string_bytes text ≡ refusal_line self.now) }
    {
        let side = self.side.name();
        let place = self.place;
        let number = self.reason.number();
        let name = self.reason.name();
        match self.kept {
            None => Ok(format!(in alloc; "! {side} {place} {number} {name}\n")?),
            Some((first, second)) => {
                Ok(format!(in alloc; "! {side} {place} {number} {name} {first} {second}\n")?)
            }
        }
    }
}
