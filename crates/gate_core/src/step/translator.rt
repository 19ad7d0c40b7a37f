//! What becomes of the items of both streams: each is taken by the function that knows its kind of packet.

ghost use Rattle.std.specs.Prelude.{◌≡◌, ◌≤◌, OnOk, OnErr, IfOk, false};
ghost use Rattle.gate_history.specs.declared.item.Item.{Item as PastItem};
ghost use Rattle.gate_history.specs.state.State.{State};
ghost use Rattle.gate_history.specs.step.Meaning.{mark_of};
ghost use Rattle.gate_history.specs.step.Past.{is_left_out};
ghost use Rattle.gate_history.specs.state.Sound.{IsSound};
ghost use Rattle.gate_history.specs.step.Wants.{GivesSome};
ghost use Rattle.gate_core.specs.inner.state.Holds.{Holds, IsFirst, IsKept, Does, DoesNothing};
ghost use Rattle.gate_history.specs.step.Fits.{IsItem, ItemFits};

use crate::state::kept::Kept;
use gate_history::Item;
use gate_parts::{Outputs, client_refusal, host_refusal};
use redir_data::RedirPacket;
use std::alloc::Global;
use std::marker::Model;
use usb_base::Memory;
use usbip_urb::{ClientPacket, UrbCommand};

/// What becomes of the items of both streams.
#[derive(Drop)]
pub struct Translator {
    kept: Kept,
}

impl Model for Translator {
    ghost use Rattle.gate_core.specs.declared.state.kept.Kept.{Kept};
    ghost use Rattle.gate_core.specs.inner.state.Holds.{IsKept};

    ghost Value = { Kept };

    ghost view = { λ translator. translator.kept };

    ghost invariant = { λ translator. IsKept translator.kept };
}

impl Translator {
    /// Nothing has come yet. The first packet to the host gets the first id.
    pub fn make(alloc: Global, first_id: u64) -> Result<Translator, Memory>
        requires { 1 ≤ first_id }
        ensures { IfOk result (λ translator. IsFirst translator first_id) }
    {
        Ok(Translator {
            kept: Kept::make(alloc, first_id)?,
        })
    }

    /// What is kept of the items.
    pub fn kept(&self) -> &Kept
        ensures { result.now ≡ self.now }
    {
        &self.kept
    }

    /// Takes the next item of a side that isn't over: the function that knows its kind appends what that sends to each
    /// side, and what it tells. For want of memory nothing has changed: what was appended goes back.
    pub fn take(&mut self, item: Item, out: &mut Outputs) -> Result<(), Memory>
        requires { ItemFits self.old.sides.agreed item }
        ensures ok { OnOk result ((st : State) (x : PastItem) → IsItem item x → Holds self.old st → IsSound st → is_left_out st x ≡ false
            → Does st (mark_of st x) self.old self.new out.old out.new) }
        ensures err { OnErr result (DoesNothing self.old self.new out.old out.new) }
        ensures wants { OnErr result ((st : State) (x : PastItem) → IsItem item x → Holds self.old st → IsSound st → GivesSome st (mark_of st x)) }
    {
        let before = out.lengths();
        let taken = match item {
            Item::Asked { place, packet } => match packet {
                ClientPacket::Op(request) => self.kept.answer_op(place, &request, out),
                ClientPacket::Urb(request) => match request.into_command() {
                    UrbCommand::Submit(submit) => self.kept.submit(place, submit, out),
                    UrbCommand::Unlink(unlink) => self.kept.unlink(place, &unlink, out),
                },
            },
            Item::ClientWrong { place, reason } => {
                self.kept.refuse_client(client_refusal(place, reason), out)
            }
            Item::ClientLeft => self.kept.client_left(out),
            Item::Told {
                place,
                header,
                packet,
            } => match packet {
                RedirPacket::Plain(packet) => {
                    self.kept.told_control(place, &header, &packet, out)
                }
                RedirPacket::Carrying(packet) => {
                    self.kept.told_data(place, &header, packet, out)
                }
            },
            Item::HostWrong { place, reason } => {
                self.kept.refuse_host(host_refusal(place, reason), out)
            }
            Item::HostLeft => self.kept.host_left(out),
        };
        match taken {
            Ok(()) => Ok(()),
            Err(memory) => {
                out.back_to(before);
                Err(memory)
            }
        }
    }
}
