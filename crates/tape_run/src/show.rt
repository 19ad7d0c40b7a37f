//! The command `show`: the packets of one side's stream as lines of text.

ghost use Rattle.std.specs.Prelude.{◌≡◌, ◌++◌, ◌∷◌, [], ℕ, List, OnOk};
ghost use Rattle.gate_history.specs.step.Events.{PastEvent};
ghost use Rattle.tape_run.specs.inner.show.Show.{shown_by, HasShown, IsShow, ShowsEvent, ShowsPackets};

pub mod format;

use crate::show::format::{Part, ShownFormat};
use crate::tape::events::EventCommand;
use gate_history::Event;
use packet_stream::{ReadError, Stream};
use std::alloc::Global;
use usb_base::{Bytes, Memory, Refusal};

/// Shows the packets of a side's stream.
#[derive(Drop)]
pub struct Show<F: ShownFormat> {
    stream: Stream<F>,
    /// This stream or one before it was wrong.
    refused: bool,
}

impl<F: ShownFormat> Show<F> {
    /// Nothing has been shown.
    pub fn start(alloc: Global) -> Show<F>
        ensures { HasShown (shown_by F.the_side F.format F.after F.first_state F.bytes F.line) result.refused result.stream [] }
    {
        Show {
            stream: Stream::new(alloc, F::first_state()),
            refused: false,
        }
    }

    /// Takes a piece of the stream, and shows the packets that it makes whole. Behind a wrong place there are none.
    fn take_piece(&mut self, alloc: Global, piece: &[u8], text: &mut Bytes) -> Result<(), Memory>
        ensures { OnOk result ((events : List PastEvent) (e : PastEvent) → F.bytes (e ∷ events) ≡ F.bytes events ++ piece.now
            → ShowsEvent (shown_by F.the_side F.format F.after F.first_state F.bytes F.line) events e self.old.refused self.new.refused self.old.stream self.new.stream text.old text.new) }
    {
        self.stream.put(piece)?;
        match show_packets(alloc, &mut self.stream, text) {
            Ok(()) => Ok(()),
            Err(ReadError::Refused { place, reason }) => {
                self.refused = true;
                let refusal = Refusal {
                    side: F::side(),
                    place,
                    reason,
                    kept: None,
                };
                refusal.line(alloc, text)
            }
            Err(ReadError::Memory(memory)) => Err(memory),
        }
    }

    /// The side's next stream begins.
    fn begin(&mut self, alloc: Global)
        ensures { (events : List PastEvent) (e : PastEvent) (text : List ℕ) → F.bytes (e ∷ events) ≡ []
            → ShowsEvent (shown_by F.the_side F.format F.after F.first_state F.bytes F.line) events e self.old.refused self.new.refused self.old.stream self.new.stream text text }
    {
        self.stream = Stream::new(alloc, F::first_state());
    }

    /// A law: an event that leaves the side's stream as it is shows nothing.
    fn pass(&self)
        ensures { (events : List PastEvent) (e : PastEvent) (text : List ℕ) → F.bytes (e ∷ events) ≡ F.bytes events
            → ShowsEvent (shown_by F.the_side F.format F.after F.first_state F.bytes F.line) events e self.now.refused self.now.refused self.now.stream self.now.stream text text }
    {}
}

impl<F: ShownFormat> EventCommand for Show<F> {
    ghost HasSeen = { λ command show events. IsShow (shown_by F.the_side F.format F.after F.first_state F.bytes F.line) command show.refused show.stream events };

    fn see(&mut self, alloc: Global, event: Event, text: &mut Bytes) -> Result<(), Memory> {
        match F::part(event) {
            Part::Piece(piece) => self.take_piece(alloc, piece, text),
            Part::End => {
                self.begin(alloc);
                Ok(())
            }
            Part::Other => {
                self.pass();
                Ok(())
            }
        }
    }

    fn close(&self, _alloc: Global, _text: &mut Bytes) -> Result<(), Memory> {
        Ok(())
    }

    fn has_refused(&self) -> bool {
        self.refused
    }
}

/// Shows the packets of a stream that are whole.
fn show_packets<F: ShownFormat>(
    alloc: Global,
    stream: &mut Stream<F>,
    text: &mut Bytes,
) -> Result<(), ReadError>
    ensures { ShowsPackets (shown_by F.the_side F.format F.after F.first_state F.bytes F.line) result stream.old stream.new text.old text.new }
{
    'packets: while let Some((place, packet)) = stream.next(alloc)? {
        F::show(alloc, place, &packet, text)?;
    }
    Ok(())
}
