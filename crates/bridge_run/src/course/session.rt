//! Serving, once both sides can come.

ghost use Rattle.std.specs.Prelude.{◌≡◌, ℕ, ◌<◌, ◌||◌, List, [], ◌∷◌, not, true, false, Option, OnOk, OnErr, IfOk, IfErr, length};
ghost use Rattle.bridge_run.specs.events.Events.{PastLinkEvent, is_quiet};
ghost use Rattle.bridge_run.specs.inner.Coming.{CanRecord, StandsAt, event_with};
ghost use Rattle.bridge_run.specs.course.Course.{Course, Next, AtDoor, AtClient, Takes};
ghost use Rattle.bridge_run.specs.course.Calls.{Goes, put, quiet};
ghost use Rattle.bridge_run.specs.declared.course.polling.TheConstants.{POLL_LIMIT};
ghost use Rattle.bridge_run.specs.course.Outside.{outside, gathering, written, faults, Tells, Cut, HasCause, HasReason};
ghost use Rattle.bridge_run.specs.written.Recorded.{sends_any};
ghost use Rattle.bridge_run.specs.course.Serves.{MayRunOut, Leaves};
ghost use Rattle.bridge_run.specs.inner.Keeping.{Agrees, Wears, IsLive, rounds_of, up_of, is_last};
ghost use Rattle.bridge_run.specs.inner.Follows.{Prepared, IsServing, HasFaults, IsCutEnd, Puts, setting, RunsOn, polls, behind};
ghost use Rattle.bridge_run.specs.log.Asks.{Ask};
ghost use Rattle.bridge_run.specs.log.Log.{Terms, Told, Logged};
ghost use Rattle.bridge_run.specs.inner.Logging.{IsTaking, IsResting, IsAsking, PutLogs, HappenLogs, Logs};
ghost use Rattle.bridge_run.specs.served.Sends.{IsPart, SendsAll, SendsPart, nothing};
ghost use Rattle.bridge_run.specs.inner.Stopping.{AreUp, IsStopping, StopLogs};
ghost use Rattle.bridge_run.specs.inner.Idling.{NotIdle, IdledOnce, EndsWithin, RoundIdles};
ghost use Rattle.usb_base.specs.declared.side.Side.TheVariants.{Client, Host};
ghost use Rattle.gate_outside.specs.Link.{other};

use crate::course::polling::poll;
use crate::course::rounds::Rounds;
use crate::course::serve_end::ServeEnd;
use crate::events::coming::{Coming, ends_next};
use crate::events::event::LinkEvent;
use crate::events::sent::Sent;
use crate::served::Served;
use crate::written::link::{close_link, write_link};
use crate::written::recording::{record_coming, write_waiting};
use gate_outside::{Doors, Polled, Side, Sink, write_all};
use session_tape::Tape;
use std::alloc::Global;
use usb_base::{Bytes, Memory};

/// What is served, and how far that has come.
#[derive(Drop)]
pub struct Session<C> {
    alloc: Global,
    served: C,
    rounds: Rounds,
    /// What the event at hand sends, and the lines that tell its refusals.
    sent: Sent,
    lines: Bytes,
    /// The lines that wait to be written to the tape.
    waiting: Bytes,
}

impl<C: Served + Drop> Session<C> {
    /// Nothing is sent yet, which takes no memory.
    pub fn new(alloc: Global, served: C, rounds: Rounds) -> Self
        ensures served { result.served ≡ served }
        ensures rounds { result.rounds ≡ rounds }
        ensures waiting { result.waiting ≡ [] }
    {
        Session {
            alloc,
            served,
            rounds,
            sent: Sent::new(alloc),
            lines: Bytes::new(alloc),
            waiting: Bytes::new(alloc),
        }
    }

    /// Has the event taken, and keeps what that sends, and the lines of its refusals.
    fn prepare(&mut self, coming: Coming) -> Result<(), Memory>
        ensures stands { OnOk result ((first : C.First) (piece : List ℕ) (past : List PastLinkEvent) → StandsAt (C.stands first) (C.runs_out first) (C.sends first) piece coming.entry self.old.served self.old.sent past → C.stands first self.new.served (event_with piece coming.entry ∷ past)) }
        ensures prepared { OnOk result ((first : C.First) (piece : List ℕ) (past : List PastLinkEvent) → StandsAt (C.stands first) (C.runs_out first) (C.sends first) piece coming.entry self.old.served self.old.sent past → Prepared (C.sends first) past (event_with piece coming.entry) self.new.sent self.new.lines) }
        ensures stops { OnErr result ((first : C.First) (piece : List ℕ) (past : List PastLinkEvent) → StandsAt (C.stands first) (C.runs_out first) (C.sends first) piece coming.entry self.old.served self.old.sent past → IsPart (C.runs_out first) (C.sends first) past (event_with piece coming.entry) self.new.sent.to_client self.new.sent.to_host) }
        ensures quiet { OnOk result (is_quiet (event_with [] coming.entry) ≡ true → self.new.sent.refusals ≡ []) }
        ensures stays { OnOk result (is_quiet (event_with [] coming.entry) ≡ true → self.new.sent.lets_go ≡ false) }
        ensures rounds { self.new.rounds ≡ self.old.rounds }
        ensures waiting { self.new.waiting ≡ self.old.waiting }
    {
        self.take(coming)?;
        self.lines.clear();
        self.sent.push_lines(self.alloc, &mut self.lines)
    }

    /// Has the event taken, unless what is served has taken it as it came: then what that sends is kept already.
    fn take(&mut self, coming: Coming) -> Result<(), Memory>
        ensures stands { OnOk result ((first : C.First) (piece : List ℕ) (past : List PastLinkEvent) → StandsAt (C.stands first) (C.runs_out first) (C.sends first) piece coming.entry self.old.served self.old.sent past → C.stands first self.new.served (event_with piece coming.entry ∷ past)) }
        ensures sends { OnOk result ((first : C.First) (piece : List ℕ) (past : List PastLinkEvent) → StandsAt (C.stands first) (C.runs_out first) (C.sends first) piece coming.entry self.old.served self.old.sent past → SendsAll (C.sends first) past (event_with piece coming.entry) nothing self.new.sent) }
        ensures stops { OnErr result ((first : C.First) (piece : List ℕ) (past : List PastLinkEvent) → StandsAt (C.stands first) (C.runs_out first) (C.sends first) piece coming.entry self.old.served self.old.sent past → SendsPart (C.runs_out first) (C.sends first) past (event_with piece coming.entry) nothing self.new.sent) }
        ensures quiet { OnOk result (is_quiet (event_with [] coming.entry) ≡ true → self.new.sent.refusals ≡ []) }
        ensures stays { OnOk result (is_quiet (event_with [] coming.entry) ≡ true → self.new.sent.lets_go ≡ false) }
        ensures rounds { self.new.rounds ≡ self.old.rounds }
        ensures waiting { self.new.waiting ≡ self.old.waiting }
    {
        match coming {
            Coming::Event(event) => {
                self.sent.clear();
                self.served.take(event, &mut self.sent)
            }
            Coming::Taken(_, taken) => taken,
        }
    }

    /// Whether the event's lines don't wait: it sends anything, or no more may come.
    fn is_due(&self) -> bool
        ensures { result ≡ (sends_any self.now.sent.to_client self.now.sent.to_host self.now.sent.refusals self.now.sent.lets_go || is_last self.now.rounds) }
    {
        self.sent.is_any() || self.rounds.is_last()
    }

    /// Memory ran out as the event was taken. If it had sent bytes by then, its line is recorded, behind those that
    /// wait, and they are written to each side whose link is up. None of its refusals is told. Says how serving ends.
    fn stop<D: Doors, T: Tape>(&mut self, coming: Coming, doors: &mut D, tape: &mut T) -> ServeEnd
        requires agrees { Agrees self.old.rounds (outside (D.link doors.old) (D.door doors.old)) }
        requires records { CanRecord coming (T.made tape.old) (T.contents tape.old) }
        ensures course { (first : C.First) (piece : List ℕ) (begun told : Option (List ℕ)) (c : Course) → IsPart (C.runs_out first) (C.sends first) c.events (event_with piece coming.entry) self.old.sent.to_client self.old.sent.to_host → AreUp self.old.rounds c
            → Tells (outside (D.link doors.old) (D.door doors.old)) (gathering begun told (T.contents tape.old) self.old.waiting) c
            → Cut (MayRunOut result (C.runs_out first) (C.sends first)) (outside (D.link doors.new) (D.door doors.new)) (gathering begun told (T.contents tape.new) self.new.waiting) c (put (C.sends first) (event_with piece coming.entry) c) }
        ensures log { (first : C.First) (piece : List ℕ) (terms : Terms) (events : List PastLinkEvent) (begun : D) → terms.taped ≡ T.made tape.old → IsPart (C.runs_out first) (C.sends first) events (event_with piece coming.entry) self.old.sent.to_client self.old.sent.to_host
            → IsStopping D.call_gives terms (C.sends first) (event_with piece coming.entry) events self.old.rounds begun doors.old → StopLogs result D.call_gives (C.runs_out first) terms (C.sends first) (event_with piece coming.entry) events begun doors.new }
        ensures faults { (sink : ℕ) → HasCause result (outside (D.link doors.old) (D.door doors.old)) (outside (D.link doors.new) (D.door doors.new)) (faults sink (T.counts tape.old)) (faults sink (T.counts tape.new)) }
        ensures cut { IsCutEnd result }
        ensures rounds { self.new.rounds ≡ self.old.rounds }
        ensures made { T.made tape.new ≡ T.made tape.old }
    {
        if !self.sent.has_bytes() {
            return ServeEnd::Memory;
        }
        self.sent.refusals.clear();
        let due = true;
        if let Err(end) = record_coming(
            self.alloc,
            coming,
            &self.sent,
            due,
            &mut self.waiting,
            tape,
        ) {
            return end;
        }
        let to_client = self.sent.to_client.as_slice();
        if let Err(end) = write_link(doors, Side::Client, self.rounds.client_up, to_client) {
            return end;
        }
        let to_host = self.sent.to_host.as_slice();
        if let Err(end) = write_link(doors, Side::Host, self.rounds.host_up, to_host) {
            return end;
        }
        ServeEnd::Memory
    }

    /// Takes one event: its lines are recorded, or wait, what it sends is written to each side whose link is up, then a
    /// side that it refuses has its link closed, or a client that it lets go, and the lines of refusals are written.
    /// Says whether the client's link was closed. For want of memory it ends as `stop` says.
    fn put<D: Doors, K: Sink, T: Tape>(
        &mut self,
        coming: Coming,
        doors: &mut D,
        out: &mut K,
        tape: &mut T,
    ) -> Result<bool, ServeEnd>
        requires agrees { Agrees self.old.rounds (outside (D.link doors.old) (D.door doors.old)) }
        requires records { CanRecord coming (T.made tape.old) (T.contents tape.old) }
        ensures course { (first : C.First) (piece : List ℕ) (begun : Option (List ℕ)) (c : Course) → IsServing (StandsAt (C.stands first) (C.runs_out first) (C.sends first) piece coming.entry self.old.served self.old.sent) (C.sends first) self.old.rounds (outside (D.link doors.old) (D.door doors.old)) (gathering begun (K.contents out.old) (T.contents tape.old) self.old.waiting) c
            → Puts result (C.stands first self.new.served) (C.runs_out first) (C.sends first) (event_with piece coming.entry) self.new.rounds (outside (D.link doors.new) (D.door doors.new)) (gathering begun (K.contents out.new) (T.contents tape.new) self.new.waiting) c }
        ensures log { (first : C.First) (piece : List ℕ) (terms : Terms) (asks : List Ask) (begun : D) (begun_out : K) → terms.taped ≡ T.made tape.old → IsTaking D.call_gives (StandsAt (C.stands first) (C.runs_out first) (C.sends first) piece coming.entry self.old.served self.old.sent) (Told K.write_gives begun_out out.old) terms (C.sends first) asks (event_with piece coming.entry) self.old.rounds begun doors.old
            → PutLogs result D.call_gives (C.stands first self.new.served) (C.runs_out first) (Told K.write_gives begun_out out.new) terms (C.sends first) asks (event_with piece coming.entry) self.new.rounds begun doors.new }
        ensures faults { HasFaults result (outside (D.link doors.old) (D.door doors.old)) (outside (D.link doors.new) (D.door doors.new)) (faults (K.faults out.old) (T.counts tape.old)) (faults (K.faults out.new) (T.counts tape.new)) }
        ensures cut { IfErr result IsCutEnd }
        ensures agrees { OnOk result (Agrees self.new.rounds (outside (D.link doors.new) (D.door doors.new))) }
        ensures wears { Wears self.old.rounds self.new.rounds }
        ensures made { T.made tape.new ≡ T.made tape.old }
        ensures left { self.new.rounds.left ≡ self.old.rounds.left }
        ensures quiet { IfOk result (λ dropped. is_quiet (event_with [] coming.entry) ≡ true → (dropped ≡ false) × (self.new.rounds ≡ self.old.rounds)) }
        ensures idles { OnOk result (NotIdle (outside (D.link doors.old) (D.door doors.old)) (outside (D.link doors.new) (D.door doors.new))) }
    {
        if let Err(_) = self.prepare(coming) {
            return Err(self.stop(coming, doors, tape));
        }
        let due = self.is_due();
        record_coming(self.alloc, coming, &self.sent, due, &mut self.waiting, tape)?;
        let Rounds {
            client_up,
            host_up,
            ..
        } = self.rounds;
        write_link(
            doors,
            Side::Client,
            client_up,
            self.sent.to_client.as_slice(),
        )?;
        write_link(doors, Side::Host, host_up, self.sent.to_host.as_slice())?;
        let dropped = self.sent.drops_client();
        close_link(doors, Side::Client, dropped);
        close_link(doors, Side::Host, self.sent.refuses(Side::Host));
        self.rounds.refuse(&self.sent);
        match write_all(out, self.lines.as_slice()) {
            Ok(()) => Ok(dropped),
            Err(_) => Err(ServeEnd::WriteFault),
        }
    }

    /// Takes an event, and behind it the end of a client that it refuses or lets go.
    fn happen<D: Doors, K: Sink, T: Tape>(
        &mut self,
        coming: Coming,
        doors: &mut D,
        out: &mut K,
        tape: &mut T,
    ) -> Result<(), ServeEnd>
        requires agrees { Agrees self.old.rounds (outside (D.link doors.old) (D.door doors.old)) }
        requires records { CanRecord coming (T.made tape.old) (T.contents tape.old) }
        ensures course { (first : C.First) (piece : List ℕ) (begun : Option (List ℕ)) (next : Next) (c : Course) → IsServing (StandsAt (C.stands first) (C.runs_out first) (C.sends first) piece coming.entry self.old.served self.old.sent) (C.sends first) self.old.rounds (outside (D.link doors.old) (D.door doors.old)) (gathering begun (K.contents out.old) (T.contents tape.old) self.old.waiting) c
            → RunsOn result (C.stands first self.new.served) (C.runs_out first) (setting (C.sends first) self.old.rounds) self.new.rounds (outside (D.link doors.new) (D.door doors.new)) (gathering begun (K.contents out.new) (T.contents tape.new) self.new.waiting) (Goes (Takes (event_with piece coming.entry) next) c) next }
        ensures log { (first : C.First) (piece : List ℕ) (terms : Terms) (asks : List Ask) (begun : D) (begun_out : K) → terms.taped ≡ T.made tape.old → IsTaking D.call_gives (StandsAt (C.stands first) (C.runs_out first) (C.sends first) piece coming.entry self.old.served self.old.sent) (Told K.write_gives begun_out out.old) terms (C.sends first) asks (event_with piece coming.entry) self.old.rounds begun doors.old
            → HappenLogs result D.call_gives (C.stands first self.new.served) (C.runs_out first) (Told K.write_gives begun_out out.new) terms (C.sends first) asks self.new.rounds begun doors.new }
        ensures faults { HasFaults result (outside (D.link doors.old) (D.door doors.old)) (outside (D.link doors.new) (D.door doors.new)) (faults (K.faults out.old) (T.counts tape.old)) (faults (K.faults out.new) (T.counts tape.new)) }
        ensures agrees { OnOk result (Agrees self.new.rounds (outside (D.link doors.new) (D.door doors.new))) }
        ensures wears { Wears self.old.rounds self.new.rounds }
        ensures made { T.made tape.new ≡ T.made tape.old }
        ensures left { OnOk result (0 < self.new.rounds.left) }
        ensures quiet { OnOk result (is_quiet (event_with [] coming.entry) ≡ true → self.new.rounds ≡ self.old.rounds) }
        ensures idles { OnOk result (NotIdle (outside (D.link doors.old) (D.door doors.old)) (outside (D.link doors.new) (D.door doors.new))) }
        ensures within { EndsWithin result (outside (D.link doors.new) (D.door doors.new)) }
    {
        let dropped = self.put(coming, doors, out, tape)?;
        if !ends_next(coming, dropped) {
            return self.rounds.settle();
        }
        let end = LinkEvent::SideEnd(Side::Client);
        self.put(Coming::Event(end), doors, out, tape)?;
        self.rounds.settle()
    }

    /// Asks for a client, where none is there.
    fn ask_door<D: Doors, K: Sink, T: Tape>(
        &mut self,
        doors: &mut D,
        out: &mut K,
        tape: &mut T,
    ) -> Result<(), ServeEnd>
        requires agrees { Agrees self.old.rounds (outside (D.link doors.old) (D.door doors.old)) }
        requires left { 0 < self.old.rounds.left }
        ensures course { (first : C.First) (begun : Option (List ℕ)) (c : Course) → IsServing (C.stands first self.old.served) (C.sends first) self.old.rounds (outside (D.link doors.old) (D.door doors.old)) (gathering begun (K.contents out.old) (T.contents tape.old) self.old.waiting) c
            → RunsOn result (C.stands first self.new.served) (C.runs_out first) (setting (C.sends first) self.old.rounds) self.new.rounds (outside (D.link doors.new) (D.door doors.new)) (gathering begun (K.contents out.new) (T.contents tape.new) self.new.waiting) (Goes AtDoor c) AtClient }
        ensures log { (first : C.First) (terms : Terms) (begun : D) (begun_out : K) → terms.taped ≡ T.made tape.old → IsAsking AtDoor D.call_gives (C.stands first self.old.served) (Told K.write_gives begun_out out.old) terms (C.sends first) self.old.rounds begun doors.old
            → Logs result AtClient D.call_gives (C.stands first self.new.served) (C.runs_out first) (Told K.write_gives begun_out out.new) terms (C.sends first) self.new.rounds begun doors.new }
        ensures faults { HasFaults result (outside (D.link doors.old) (D.door doors.old)) (outside (D.link doors.new) (D.door doors.new)) (faults (K.faults out.old) (T.counts tape.old)) (faults (K.faults out.new) (T.counts tape.new)) }
        ensures agrees { OnOk result (Agrees self.new.rounds (outside (D.link doors.new) (D.door doors.new))) }
        ensures wears { Wears self.old.rounds self.new.rounds }
        ensures made { T.made tape.new ≡ T.made tape.old }
        ensures left { OnOk result (0 < self.new.rounds.left) }
        ensures idles { OnOk result (IdledOnce (not self.old.rounds.client_up) self.old.rounds self.new.rounds (D.link doors.old Client).idle (D.link doors.new Client).idle) }
        ensures other { OnOk result ((D.link doors.new Host).idle ≡ (D.link doors.old Host).idle) }
        ensures within { EndsWithin result (outside (D.link doors.new) (D.door doors.new)) }
    {
        if self.rounds.client_up {
            return Ok(());
        }
        match doors.accept() {
            Ok(true) => {
                self.rounds.come();
                self.happen(Coming::Event(LinkEvent::ClientComes), doors, out, tape)
            }
            Ok(false) => Ok(()),
            Err(_) => Err(ServeEnd::LinkFault(Side::Client)),
        }
    }

    /// The side had nothing, which is an event where it is the client.
    fn be_quiet<D: Doors, K: Sink, T: Tape>(
        &mut self,
        side: Side,
        doors: &mut D,
        out: &mut K,
        tape: &mut T,
    ) -> Result<(), ServeEnd>
        requires agrees { Agrees self.old.rounds (outside (D.link doors.old) (D.door doors.old)) }
        requires left { 0 < self.old.rounds.left }
        ensures course { (first : C.First) (begun : Option (List ℕ)) (next : Next) (c : Course) → IsServing (C.stands first self.old.served) (C.sends first) self.old.rounds (outside (D.link doors.old) (D.door doors.old)) (gathering begun (K.contents out.old) (T.contents tape.old) self.old.waiting) c
            → RunsOn result (C.stands first self.new.served) (C.runs_out first) (setting (C.sends first) self.old.rounds) self.new.rounds (outside (D.link doors.new) (D.door doors.new)) (gathering begun (K.contents out.new) (T.contents tape.new) self.new.waiting) (Goes (quiet side next) c) next }
        ensures log { (first : C.First) (terms : Terms) (asks : List Ask) (begun : D) (begun_out : K) → terms.taped ≡ T.made tape.old → IsResting side D.call_gives (C.stands first self.old.served) (Told K.write_gives begun_out out.old) terms (C.sends first) asks self.old.rounds begun doors.old
            → HappenLogs result D.call_gives (C.stands first self.new.served) (C.runs_out first) (Told K.write_gives begun_out out.new) terms (C.sends first) asks self.new.rounds begun doors.new }
        ensures faults { HasFaults result (outside (D.link doors.old) (D.door doors.old)) (outside (D.link doors.new) (D.door doors.new)) (faults (K.faults out.old) (T.counts tape.old)) (faults (K.faults out.new) (T.counts tape.new)) }
        ensures agrees { OnOk result (Agrees self.new.rounds (outside (D.link doors.new) (D.door doors.new))) }
        ensures wears { Wears self.old.rounds self.new.rounds }
        ensures made { T.made tape.new ≡ T.made tape.old }
        ensures rounds { OnOk result (self.new.rounds ≡ self.old.rounds) }
        ensures idles { OnOk result (NotIdle (outside (D.link doors.old) (D.door doors.old)) (outside (D.link doors.new) (D.door doors.new))) }
        ensures within { EndsWithin result (outside (D.link doors.new) (D.door doors.new)) }
    {
        match side {
            Side::Client => self.happen(Coming::Event(LinkEvent::ClientQuiet), doors, out, tape),
            Side::Host => Ok(()),
        }
    }

    /// Polls the side, where its link is up.
    fn ask<D: Doors, K: Sink, T: Tape>(
        &mut self,
        side: Side,
        buf: &mut [u8],
        doors: &mut D,
        out: &mut K,
        tape: &mut T,
    ) -> Result<(), ServeEnd>
        requires agrees { Agrees self.old.rounds (outside (D.link doors.old) (D.door doors.old)) }
        requires left { 0 < self.old.rounds.left }
        requires room { length buf.old ≡ POLL_LIMIT }
        ensures course { (first : C.First) (begun : Option (List ℕ)) (c : Course) → IsServing (C.stands first self.old.served) (C.sends first) self.old.rounds (outside (D.link doors.old) (D.door doors.old)) (gathering begun (K.contents out.old) (T.contents tape.old) self.old.waiting) c
            → RunsOn result (C.stands first self.new.served) (C.runs_out first) (setting (C.sends first) self.old.rounds) self.new.rounds (outside (D.link doors.new) (D.door doors.new)) (gathering begun (K.contents out.new) (T.contents tape.new) self.new.waiting) (Goes (polls side) c) (behind side) }
        ensures log { (first : C.First) (terms : Terms) (begun : D) (begun_out : K) → terms.taped ≡ T.made tape.old → IsAsking (polls side) D.call_gives (C.stands first self.old.served) (Told K.write_gives begun_out out.old) terms (C.sends first) self.old.rounds begun doors.old
            → Logs result (behind side) D.call_gives (C.stands first self.new.served) (C.runs_out first) (Told K.write_gives begun_out out.new) terms (C.sends first) self.new.rounds begun doors.new }
        ensures faults { HasFaults result (outside (D.link doors.old) (D.door doors.old)) (outside (D.link doors.new) (D.door doors.new)) (faults (K.faults out.old) (T.counts tape.old)) (faults (K.faults out.new) (T.counts tape.new)) }
        ensures agrees { OnOk result (Agrees self.new.rounds (outside (D.link doors.new) (D.door doors.new))) }
        ensures wears { Wears self.old.rounds self.new.rounds }
        ensures made { T.made tape.new ≡ T.made tape.old }
        ensures left { OnOk result (0 < self.new.rounds.left) }
        ensures idles { OnOk result (IdledOnce (up_of side self.old.rounds) self.old.rounds self.new.rounds (D.link doors.old side).idle (D.link doors.new side).idle) }
        ensures other { OnOk result ((D.link doors.new (other side)).idle ≡ (D.link doors.old (other side)).idle) }
        ensures within { EndsWithin result (outside (D.link doors.new) (D.door doors.new)) }
    {
        if !self.rounds.is_up(side) {
            return Ok(());
        }
        self.sent.clear();
        let taped = tape.is_made();
        let came = poll(&mut self.served, side, buf, doors, taped, &mut self.sent);
        match came.polled {
            Polled::Took(n) => {
                self.rounds.take(n);
                match came.taken {
                    Some(taken) => self.happen(Coming::Taken(side, taken), doors, out, tape),
                    None => {
                        let event = LinkEvent::SidePiece(side, &buf[..n]);
                        self.happen(Coming::Event(event), doors, out, tape)
                    }
                }
            }
            Polled::NotYet => self.be_quiet(side, doors, out, tape),
            Polled::Ended => {
                self.rounds.end(side);
                self.happen(Coming::Event(LinkEvent::SideEnd(side)), doors, out, tape)
            }
            Polled::Failed => Err(ServeEnd::LinkFault(side)),
        }
    }

    /// One round. Where it brings nothing, the lines that wait are written.
    fn round<D: Doors, K: Sink, T: Tape>(
        &mut self,
        buf: &mut [u8],
        doors: &mut D,
        out: &mut K,
        tape: &mut T,
    ) -> Result<(), ServeEnd>
        requires agrees { Agrees self.old.rounds (outside (D.link doors.old) (D.door doors.old)) }
        requires live { IsLive self.old.rounds }
        requires room { length buf.old ≡ POLL_LIMIT }
        ensures course { (first : C.First) (begun : Option (List ℕ)) (c : Course) → IsServing (C.stands first self.old.served) (C.sends first) self.old.rounds (outside (D.link doors.old) (D.door doors.old)) (gathering begun (K.contents out.old) (T.contents tape.old) self.old.waiting) c
            → RunsOn result (C.stands first self.new.served) (C.runs_out first) (setting (C.sends first) self.old.rounds) self.new.rounds (outside (D.link doors.new) (D.door doors.new)) (gathering begun (K.contents out.new) (T.contents tape.new) self.new.waiting) (Goes AtDoor c) AtDoor }
        ensures log { (first : C.First) (terms : Terms) (begun : D) (begun_out : K) → terms.taped ≡ T.made tape.old → IsAsking AtDoor D.call_gives (C.stands first self.old.served) (Told K.write_gives begun_out out.old) terms (C.sends first) self.old.rounds begun doors.old
            → Logs result AtDoor D.call_gives (C.stands first self.new.served) (C.runs_out first) (Told K.write_gives begun_out out.new) terms (C.sends first) self.new.rounds begun doors.new }
        ensures faults { HasFaults result (outside (D.link doors.old) (D.door doors.old)) (outside (D.link doors.new) (D.door doors.new)) (faults (K.faults out.old) (T.counts tape.old)) (faults (K.faults out.new) (T.counts tape.new)) }
        ensures agrees { OnOk result (Agrees self.new.rounds (outside (D.link doors.new) (D.door doors.new))) }
        ensures live { OnOk result (IsLive self.new.rounds) }
        ensures idle { OnOk result (self.new.rounds.idle ≡ self.old.rounds.idle) }
        ensures made { T.made tape.new ≡ T.made tape.old }
        ensures idles { RoundIdles result self.old.rounds self.new.rounds (outside (D.link doors.old) (D.door doors.old)) (outside (D.link doors.new) (D.door doors.new)) }
        ensures fewer { OnOk result (rounds_of self.new.rounds < rounds_of self.old.rounds) }
    {
        self.ask_door(doors, out, tape)?;
        self.ask(Side::Client, buf, doors, out, tape)?;
        self.ask(Side::Host, buf, doors, out, tape)?;
        let due = !self.rounds.busy;
        write_waiting(due, &mut self.waiting, tape)?;
        self.rounds.rest()
    }

    /// Rounds, one after another, to the end.
    pub fn run<D: Doors, K: Sink, T: Tape>(
        &mut self,
        buf: &mut [u8],
        doors: &mut D,
        out: &mut K,
        tape: &mut T,
    ) -> ServeEnd
        requires agrees { Agrees self.old.rounds (outside (D.link doors.old) (D.door doors.old)) }
        requires live { IsLive self.old.rounds }
        requires room { length buf.old ≡ POLL_LIMIT }
        requires fresh { self.old.rounds.waits ≡ self.old.rounds.idle }
        ensures course { (first : C.First) (begun : Option (List ℕ)) (c : Course) → IsServing (C.stands first self.old.served) (C.sends first) self.old.rounds (outside (D.link doors.old) (D.door doors.old)) (gathering begun (K.contents out.old) (T.contents tape.old) self.old.waiting) c
            → Leaves result (C.runs_out first) (setting (C.sends first) self.old.rounds) (Goes AtDoor c) (outside (D.link doors.new) (D.door doors.new)) (written begun (K.contents out.new) (T.contents tape.new)) }
        ensures log { (first : C.First) (terms : Terms) (begun : D) (begun_out : K) → terms.taped ≡ T.made tape.old → IsAsking AtDoor D.call_gives (C.stands first self.old.served) (Told K.write_gives begun_out out.old) terms (C.sends first) self.old.rounds begun doors.old
            → Logged result D.call_gives (C.runs_out first) (Told K.write_gives begun_out out.new) terms (C.sends first) begun doors.new }
        ensures cause { HasCause result (outside (D.link doors.old) (D.door doors.old)) (outside (D.link doors.new) (D.door doors.new)) (faults (K.faults out.old) (T.counts tape.old)) (faults (K.faults out.new) (T.counts tape.new)) }
        ensures reason { HasReason result self.old.rounds.idle (outside (D.link doors.old) (D.door doors.old)) (outside (D.link doors.new) (D.door doors.new)) }
    {
        'rounds: loop {
            if let Err(end) = self.round(buf, doors, out, tape) {
                return end;
            }
        }
    }
}
