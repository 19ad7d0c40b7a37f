//! One side's connection, and what became of the calls on it.

ghost use Rattle.std.specs.Prelude.{◌≡◌, ◌<◌, false, length, IsTrue, is_some};
ghost use Rattle.gate_outside.specs.Doors.{Polls, TookWithin};
ghost use Rattle.gate_sockets.specs.Polling.{PassesOver, Hears, PollSteps};
ghost use Rattle.gate_sockets.specs.State.{fresh, opened, closed, broke, faulted, idled, untold};
ghost use Rattle.gate_sockets.specs.Writing.{ReadOn, WroteOnce, TakesFront};

use crate::ahead::Ahead;
use crate::connection::Connection;
use crate::limits::RESTS;
use crate::network::Network;
use crate::ready::Ready;
use crate::step::{Step, step_of};
use crate::telling::Peer;
use gate_outside::{Failed, Polled, Side};
use std::alloc::Global;
use std::io;
use std::marker::Model;
use std::net::SocketAddr;

/// How many bytes are read ahead at a time.
const CHUNK: usize = 16_384;

/// How many times in a row at most, where each read brings something.
const CHUNKS: u32 = 256;

/// A connection while there is one, and its counts.
#[derive(Drop)]
pub(crate) struct Socket<S: Connection> {
    side: Side,
    stream: Option<S>,
    /// The other end of the link, or of the last one where none is up.
    addr: Option<SocketAddr>,
    /// Why that link broke, if it did.
    why: Option<io::Error>,
    ahead: Ahead,
    broken: bool,
    /// How many polls from now on may pass the link over.
    rests: u32,
    faults: u64,
    idle: u64,
}

impl<S: Connection> Model for Socket<S> {
    ghost use Rattle.gate_sockets.specs.State.{State};

    ghost Value = { State S };

    ghost view = { λ socket. record {
      stream = socket.stream;
      ahead = socket.ahead;
      broken = socket.broken;
      rests = socket.rests;
      faults = socket.faults;
      idle = socket.idle;
    } };
}

impl<S: Connection> Socket<S> {
    pub(crate) fn new(side: Side, alloc: Global) -> Socket<S>
        ensures { result ≡ fresh }
    {
        Socket {
            side,
            stream: None,
            addr: None,
            why: None,
            ahead: Ahead::new(alloc),
            broken: false,
            rests: 0,
            faults: 0,
            idle: 0,
        }
    }

    pub(crate) fn open(&mut self, stream: S)
        ensures { self.new ≡ opened stream self.old }
    {
        self.addr = stream.peer();
        self.why = None;
        self.stream = Some(stream);
        self.ahead.clear();
        self.broken = false;
        self.rests = 0;
    }

    /// The other end, of the last link where none is up.
    pub(crate) fn other_end(&self) -> Peer {
        Peer {
            side: self.side,
            addr: self.addr,
        }
    }

    /// Why that link broke, if it did.
    pub(crate) fn why(&self) -> Option<&io::Error> {
        self.why.as_ref()
    }

    pub(crate) fn close(&mut self)
        ensures { self.new ≡ closed self.old }
    {
        self.stream = None;
        self.ahead.clear();
        self.broken = false;
        self.rests = 0;
    }

    /// The link has broken.
    fn break_off(&mut self, error: io::Error)
        ensures { self.new ≡ broke self.old }
    {
        self.broken = true;
        self.why = Some(error);
    }

    /// Counts a fault.
    pub(crate) fn fail(&mut self) -> Failed
        ensures { self.new ≡ faulted self.old }
    {
        self.faults = self.faults.saturating_add(1);
        Failed
    }

    /// Counts an idle answer.
    pub(crate) fn count_idle(&mut self)
        ensures { self.new ≡ idled self.old }
    {
        self.idle = self.idle.saturating_add(1);
    }

    /// What the connection has to give, after a moment at most: first what was read ahead.
    pub(crate) fn poll<N: Network>(
        &mut self,
        buf: &mut [u8],
        ready: &mut Ready,
        network: &N,
    ) -> Polled
        requires up { IsTrue (is_some self.old.stream) }
        requires room { 0 < length buf.old }
        ensures bound { TookWithin result buf.new }
        ensures state { PollSteps S.read_gives result buf.new self.old self.new }
        ensures link { Polls result buf.new (untold self.old) (untold self.new) }
    {
        let given = self.ahead.give(buf);
        if given > 0 {
            ready.moved();
            return Polled::Took(given);
        }
        if self.passes_over(ready, network) {
            self.count_idle();
            return Polled::NotYet;
        }
        ready.reads(self.side);
        self.rests = 0;
        let limit = buf.len();
        let Some(stream) = &mut self.stream else {
            unreachable!();
        };
        let step = step_of(stream.read_once(buf), limit);
        match step {
            Step::Moved(_) | Step::Broken(_) => ready.moved(),
            Step::Blocked => ready.drained(),
            // It is tried again, but not over and over without a pause.
            Step::Cut => {
                ready.found_nothing(network);
            }
        }
        self.hear(step, limit)
    }

    /// Whether the poll passes the link over, after a moment. Where a read had to wait, or took all that was there, the
    /// next polls do so, until the system tells of something; but not for long, since nobody waits for what it tells
    /// while the other side never rests. A link that has broken is read to its end.
    fn passes_over<N: Network>(&mut self, ready: &mut Ready, network: &N) -> bool
        ensures over { IsTrue result → PassesOver self.old self.new }
        ensures reads { result ≡ false → self.new ≡ record self.old { rests = self.new.rests } }
    {
        if self.broken || self.rests == 0 || ready.is_told(self.side) {
            return false;
        }
        ready.found_nothing(network);
        self.rests -= 1;
        self.rests > 0 && !ready.is_told(self.side)
    }

    /// What a read means that had so much room. It took all that was there, where it didn't fill that.
    fn hear(&mut self, step: Step, room: usize) -> Polled
        ensures hears { Hears step room result self.old self.new }
    {
        match step {
            Step::Moved(count) if count > 0 => {
                if count < room {
                    self.rests = RESTS;
                }
                Polled::Took(count)
            }
            Step::Blocked if !self.broken => {
                self.rests = RESTS;
                self.count_idle();
                Polled::NotYet
            }
            Step::Cut => {
                self.count_idle();
                Polled::NotYet
            }
            Step::Broken(error) => self.lose(error),
            Step::Moved(_) | Step::Blocked => self.end(),
        }
    }

    /// The link has ended.
    fn end(&mut self) -> Polled
        ensures answer { result ≡ Polled.Ended }
        ensures state { self.new ≡ closed self.old }
    {
        self.close();
        Polled::Ended
    }

    /// The link has broken, and so ended.
    fn lose(&mut self, error: io::Error) -> Polled
        ensures answer { result ≡ Polled.Ended }
        ensures state { self.new ≡ closed self.old }
    {
        self.break_off(error);
        self.end()
    }

    /// Writes a front of the piece, where that need not wait.
    pub(crate) fn write_once(&mut self, piece: &[u8]) -> Option<usize>
        requires up { IsTrue (is_some self.old.stream) }
        requires some { 0 < length piece.now }
        ensures { WroteOnce S.read_gives S.write_gives result piece.now self.old self.new }
    {
        if self.broken {
            return Some(piece.len());
        }
        let Some(stream) = &mut self.stream else {
            unreachable!();
        };
        let step = step_of(stream.write_once(piece), piece.len());
        self.take(step, piece.len())
    }

    /// How many bytes a write of so many has taken.
    fn take(&mut self, step: Step, most: usize) -> Option<usize>
        ensures { TakesFront step most result self.old self.new }
    {
        match step {
            Step::Moved(count) if count > 0 => Some(count),
            Step::Broken(error) => {
                self.break_off(error);
                Some(most)
            }
            _ => None,
        }
    }

    /// Reads ahead what the link has now, if it is up.
    pub(crate) fn read_on(&mut self, most: usize)
        ensures { ReadOn S.read_gives S.write_gives self.old self.new }
    {
        let mut chunk = [0; CHUNK];
        for _ in 0..CHUNKS {
            if !self.read_ahead(most, &mut chunk) {
                return;
            }
        }
    }

    /// Reads ahead once, and says whether that brought something.
    fn read_ahead(&mut self, most: usize, chunk: &mut [u8]) -> bool
        ensures { ReadOn S.read_gives S.write_gives self.old self.new }
    {
        let Some(stream) = &mut self.stream else {
            return false;
        };
        match self.ahead.read_on(stream, most, chunk) {
            Step::Moved(count) => count > 0,
            Step::Broken(error) => {
                self.break_off(error);
                false
            }
            Step::Blocked | Step::Cut => false,
        }
    }
}
