//! Writing to a side's link, and closing it.

ghost use Rattle.std.specs.Prelude.{◌≡◌, List, IfErr};
ghost use Rattle.bridge_run.specs.declared.course.serve_end.ServeEnd.TheVariants.{LinkFault};
ghost use Rattle.gate_outside.specs.Link.{other};
ghost use Rattle.gate_outside.specs.Calls.{Call, Called};
ghost use Rattle.bridge_run.specs.inner.Links.{WritesAll, closed_if};
ghost use Rattle.bridge_run.specs.inner.Logging.{LogsAll, closing};

use crate::course::serve_end::ServeEnd;
use gate_outside::{Doors, Side};

/// Writes all of the bytes to the side's link, if it is up, or, where that fails, which is a fault of that side's link,
/// a front of them.
pub fn write_link<D: Doors>(
    doors: &mut D,
    side: Side,
    up: bool,
    bytes: &[u8],
) -> Result<(), ServeEnd>
    requires { up ≡ (D.link doors.old side).up }
    ensures fault { IfErr result (λ end. end ≡ LinkFault side) }
    ensures link { WritesAll result up bytes.now (D.link doors.old side) (D.link doors.new side) }
    ensures other { D.link doors.new (other side) ≡ D.link doors.old (other side) }
    ensures door { D.door doors.new ≡ D.door doors.old }
    ensures log { (begun : D) (calls : List Call) → Called D.call_gives calls begun doors.old → LogsAll result D.call_gives side up bytes.now calls begun doors.new }
{
    if !up {
        return Ok(());
    }
    let mut done = 0;
    while done < bytes.len() {
        match doors.write(side, &bytes[done..]) {
            Ok(n) => done += n,
            Err(_) => return Err(ServeEnd::LinkFault(side)),
        }
    }
    Ok(())
}

/// Closes the side's link if it is dropped: the side is refused, or a client is let go.
pub fn close_link<D: Doors>(doors: &mut D, side: Side, dropped: bool)
    ensures link { D.link doors.new side ≡ closed_if dropped side (D.link doors.old side) }
    ensures other { D.link doors.new (other side) ≡ D.link doors.old (other side) }
    ensures door { D.door doors.new ≡ D.door doors.old }
    ensures log { (begun : D) (calls : List Call) → Called D.call_gives calls begun doors.old → Called D.call_gives (closing dropped side calls) begun doors.new }
{
    if dropped {
        doors.close(side);
    }
}
