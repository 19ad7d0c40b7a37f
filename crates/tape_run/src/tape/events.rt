//! Commands over the events that a replay tape's lines say.

ghost use Rattle.std.specs.Prelude.{◌≡◌, ◌++◌, ◌∷◌, [], List, None, OnOk, option_map, true, false};
ghost use Rattle.gate_history.specs.step.Events.{PastEvent, event_of};
ghost use Rattle.packet_show.specs.Tape.{replay_line};
ghost use Rattle.tape_run.specs.tape.Tape.{event_said, host_ended};
ghost use Rattle.tape_run.specs.tape.EventCommand.{EventCommand as Meant, over_events};
ghost use Rattle.tape_run.specs.tape.EventTape.{HasEvents};
ghost use Rattle.tape_run.specs.inner.tape.Stands.{MayStand};

use crate::tape::command::TapeCommand;
use gate_history::Event;
use packet_show::{LineError, ReplayLine};
use std::alloc::Global;
use usb_base::{Bytes, Memory};

/// A command over events. What it is to do is plain data (`Meant`), and `HasSeen` says when it is that command and has
/// seen these events.
pub trait EventCommand {
    ghost HasSeen: { Meant → Self → List PastEvent → Type 0 };

    /// Takes the next event, and appends its text.
    fn see(&mut self, alloc: Global, event: Event, text: &mut Bytes) -> Result<(), Memory>
        ensures { OnOk result ((command : Meant) (events : List PastEvent) → HasSeen command self.old events
            → (text.new ≡ text.old ++ command.text events (event_of event.entry)) × HasSeen command self.new (event_of event.entry ∷ events)) };

    /// Appends the text behind the last event.
    fn close(&self, alloc: Global, text: &mut Bytes) -> Result<(), Memory>
        ensures { OnOk result ((command : Meant) (events : List PastEvent) → HasSeen command self.now events → text.new ≡ text.old ++ command.closing events) };

    /// Whether the run ends in a refusal.
    fn has_refused(&self) -> bool
        ensures { (command : Meant) (events : List PastEvent) → HasSeen command self.now events → result ≡ command.refused events };
}

/// The event that a line says, if there is one.
fn event_said(line: &ReplayLine) -> Option<Event<'_>>
    ensures { option_map event_of result ≡ event_said line.now }
{
    match line {
        ReplayLine::Skip => None,
        ReplayLine::Client(piece) => Some(Event::ClientPiece(piece.as_slice())),
        ReplayLine::ClientEnd => Some(Event::ClientEnd),
        ReplayLine::Host(piece) => Some(Event::HostPiece(piece.as_slice())),
        ReplayLine::HostEnd => Some(Event::HostEnd),
    }
}

/// A command over events, and what its tape may still say.
#[derive(Drop)]
pub struct EventTape<E> {
    command: E,
    host_ended: bool,
}

impl<E: EventCommand> EventTape<E> {
    /// Nothing has happened yet.
    pub fn start(command: E) -> EventTape<E>
        ensures { (meant : Meant) → E.HasSeen meant command [] → HasEvents E.HasSeen meant result [] }
    {
        EventTape {
            command,
            host_ended: false,
        }
    }

    /// Whether the line isn't one of a host that has ended.
    fn may_stand(&self, line: &[u8]) -> bool
        ensures stands { result ≡ true → (events : List PastEvent) → self.now.host_ended ≡ host_ended events → MayStand events (replay_line line.now) }
        ensures bad { result ≡ false → (meant : Meant) (events : List PastEvent) → self.now.host_ended ≡ host_ended events → (over_events meant).line events line.now ≡ None }
    {
        match line {
            [b'h', ..] => !self.host_ended,
            _ => true,
        }
    }

    /// Keeps that the host has ended, if the event says so.
    fn see_end(&mut self, event: Event)
        ensures host { (events : List PastEvent) → self.old.host_ended ≡ host_ended events → self.new.host_ended ≡ host_ended (event_of event.entry ∷ events) }
        ensures rest { self.new ≡ record self.old { host_ended = self.new.host_ended } }
    {
        if let Event::HostEnd = event {
            self.host_ended = true;
        }
    }
}

impl<E: EventCommand> TapeCommand for EventTape<E> {
    ghost Kept = { List PastEvent };

    ghost Task = { Meant };

    ghost means = { over_events };

    ghost Keeps = { HasEvents E.HasSeen };

    fn take_line(&mut self, alloc: Global, line: &[u8], text: &mut Bytes) -> Result<(), LineError> {
        if !self.may_stand(line) {
            return Err(LineError::Bad);
        }
        let said = ReplayLine::read(alloc, line)?;
        let Some(event) = event_said(&said) else {
            return Ok(());
        };
        self.command.see(alloc, event, text)?;
        self.see_end(event);
        Ok(())
    }

    fn close(&self, alloc: Global, text: &mut Bytes) -> Result<(), Memory> {
        self.command.close(alloc, text)
    }

    fn has_refused(&self) -> bool {
        self.command.has_refused()
    }
}
