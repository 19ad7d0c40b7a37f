//! What notes tell, as items and submits.

ghost use Rattle.std.specs.Prelude.{◌≡◌, ◌++◌, OnOk};
ghost use Rattle.std.specs.List.{flat_map};
ghost use Rattle.direct_run.specs.Noted.{item_of, item_of_host, named, performed_item, offered_item, queue_byte};

use crate::submitted::number_in;
use direct_run::{Item, Items, Submits, Submitted};
use gate_history::{Note, Notes};
use redir_host::{HostNote, HostNotes, Offered, Performed};
use usb_base::{EpAddr, Memory};

/// Appends the items of the gateway's notes.
pub fn push_items(notes: &Notes, items: &mut Items) -> Result<(), Memory>
    ensures { OnOk result (items.new ≡ items.old ++ flat_map item_of notes.now) }
{
    for note in notes.as_slice() {
        match *note {
            Note::Imported => items.push(Item::Import)?,
            Note::Submitted { seqnum, .. } => items.push(Item::Submit(seqnum))?,
            Note::UnlinkAsked { by, target } => items.push(Item::Unlink { by, target })?,
            Note::Arrived { ep } => items.push(Item::Arrive(ep))?,
            Note::Answered { seqnum } => items.push(Item::Answer(seqnum))?,
            Note::DeviceGone => items.push(Item::Gone)?,
            Note::ClientGone => items.push(Item::ClientGone)?,
            Note::Refused(_) => {}
        }
    }
    Ok(())
}

/// Appends the submits among the notes, with their ids.
pub fn push_submits(notes: &Notes, submits: &mut Submits) -> Result<(), Memory>
    ensures { OnOk result (submits.new ≡ submits.old ++ flat_map named notes.now) }
{
    for note in notes.as_slice() {
        if let Note::Submitted { seqnum, id } = *note {
            submits.push(Submitted { seqnum, id })?;
        }
    }
    Ok(())
}

/// Appends the items of the host's notes.
pub fn push_host_items(
    notes: &HostNotes,
    submits: &Submits,
    items: &mut Items,
) -> Result<(), Memory>
    ensures { OnOk result (items.new ≡ items.old ++ flat_map (item_of_host submits.now) notes.now) }
{
    for note in notes.as_slice() {
        if let HostNote::Cancelled { id } = *note {
            items.push(Item::Cancel(number_in(id, submits)))?;
        }
    }
    Ok(())
}

/// Appends the item of a perform, if it was one.
pub fn push_performed(
    performed: Performed,
    ep: EpAddr,
    submits: &Submits,
    items: &mut Items,
) -> Result<(), Memory>
    ensures { OnOk result (items.new ≡ items.old ++ performed_item submits.now ep performed) }
{
    match performed {
        Performed::Done { id } => {
            let seqnum = number_in(id, submits);
            items.push(Item::Perform {
                ep: queue_address(ep),
                seqnum,
            })
        }
        Performed::NotReady | Performed::Unplugged => Ok(()),
    }
}

/// The address that names an endpoint's queue: endpoint 0 has one for both directions.
fn queue_address(ep: EpAddr) -> EpAddr
    ensures { result ≡ queue_byte ep }
{
    if ep.is_control() {
        EpAddr::control(false)
    } else {
        ep
    }
}

/// Appends the item of an offer, if it was one.
pub fn push_offered(offered: Offered, ep: EpAddr, items: &mut Items) -> Result<(), Memory>
    ensures { OnOk result (items.new ≡ items.old ++ offered_item ep offered) }
{
    match offered {
        Offered::Sent => items.push(Item::Offer(ep)),
        Offered::Nothing | Offered::Closed | Offered::Unplugged => Ok(()),
    }
}

/// Appends all of these items.
pub fn push_all(more: &Items, items: &mut Items) -> Result<(), Memory>
    ensures { OnOk result (items.new ≡ items.old ++ more.now) }
{
    for item in more.as_slice() {
        items.push(*item)?;
    }
    Ok(())
}
