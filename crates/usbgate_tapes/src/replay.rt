//! The command `replay`: the events of a tape are put to a gate.

ghost use Rattle.std.specs.Prelude.{◌≡◌, ◌++◌, ◌≤◌, [], ℕ, List, IfOk, OnOk};
ghost use Rattle.std.specs.List.{list_any};
ghost use Rattle.gate_history.specs.step.Events.{PastEvent, event_of};
ghost use Rattle.gate_history.specs.step.Refusals.{is_refusal};
ghost use Rattle.tape_run.specs.Text.{opening_text, sent_text};
ghost use Rattle.tape_run.specs.Replay.{replay};
ghost use Rattle.usbgate_tapes.specs.inner.Replay.{HasReplayed, PutsEvent, Replays};

use gate_core::Gate;
use gate_history::{Event, Note, Notes};
use std::alloc::Global;
use tape_run::{EventCommand, push_bytes, push_counts, push_notes};
use usb_base::{Bytes, Memory};

/// A gate to which the events of a tape are put.
#[derive(Drop)]
pub struct Replay {
    gate: Gate,
    /// What the event at hand sends to the client.
    to_client: Bytes,
    /// What the event at hand sends to the host.
    to_host: Bytes,
    /// A side was refused.
    refused: bool,
}

impl Replay {
    /// The replay to which nothing has happened. It appends the line of what the gate's making sends.
    pub fn start(alloc: Global, first_id: u32, text: &mut Bytes) -> Result<Replay, Memory>
        requires { 1 ≤ first_id }
        ensures start { IfOk result (λ made. Replays (replay first_id) made []) }
        ensures text { OnOk result (text.new ≡ text.old ++ opening_text first_id) }
    {
        let mut to_host = Bytes::new(alloc);
        let gate = Gate::make(alloc, u64::from(first_id), &mut to_host)?;
        push_bytes(b'H', to_host.as_slice(), text)?;
        to_host.clear();
        Ok(Replay {
            gate,
            to_client: Bytes::new(alloc),
            to_host,
            refused: false,
        })
    }

    /// Puts the event to the gate, and appends what it sends and tells.
    fn put(&mut self, alloc: Global, event: Event, text: &mut Bytes) -> Result<(), Memory>
        ensures { OnOk result ((first : ℕ) (events : List PastEvent) → HasReplayed first self.old events → PutsEvent first self.new events (event_of event.entry) text.old text.new) }
    {
        let notes = self
            .gate
            .take(event, &mut self.to_client, &mut self.to_host)?;
        self.print(alloc, &notes, text)?;
        self.to_client.clear();
        self.to_host.clear();
        self.refused |= tells_refusal(&notes);
        Ok(())
    }

    /// Appends what the event at hand sends, and its notes.
    fn print(&self, alloc: Global, notes: &Notes, text: &mut Bytes) -> Result<(), Memory>
        ensures { OnOk result (text.new ≡ text.old ++ sent_text self.now.to_client self.now.to_host notes.now) }
    {
        push_bytes(b'C', self.to_client.as_slice(), text)?;
        push_bytes(b'H', self.to_host.as_slice(), text)?;
        push_notes(alloc, notes, text)
    }
}

impl EventCommand for Replay {
    ghost HasSeen = { Replays };

    fn see(&mut self, alloc: Global, event: Event, text: &mut Bytes) -> Result<(), Memory> {
        self.put(alloc, event, text)
    }

    fn close(&self, alloc: Global, text: &mut Bytes) -> Result<(), Memory> {
        push_counts(alloc, &self.gate.counts(), text)
    }

    fn has_refused(&self) -> bool {
        self.refused
    }
}

/// Whether a side was refused.
fn tells_refusal(notes: &Notes) -> bool
    ensures { result ≡ list_any is_refusal notes.now }
{
    notes
        .as_slice()
        .iter()
        .any(|note| matches!(note, Note::Refused(_)))
}
