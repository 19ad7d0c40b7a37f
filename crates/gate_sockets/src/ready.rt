//! When to read from the sockets, when to wait for them, and for which.

use crate::network::Network;
use crate::pace::Pace;
use gate_outside::Side;
use mio::net::{TcpListener, TcpStream};
use mio::{Events, Interest, Poll, Token};
use std::alloc::Global;
use std::io;
use std::net::Net;
use std::time::Duration;

/// How many looks in a row find nothing before one waits.
const QUIET_LOOKS: u32 = 2;

/// How long a look waits at most for something to come.
const READ_WAIT_MILLIS: u64 = 10;

/// How often one looks without sleeping before one waits, behind a lone packet.
const EAGER_LOOKS: u32 = 64;

/// How many times bytes come or go at most where a lone packet went its way: in and out again.
const LONE_MOVES: u32 = 2;

/// How often in a row such looks may find nothing before most waits begin without them.
const VAIN: u32 = 4;

/// From then on, until they find something again, one wait of so many begins with them.
const SELDOM: u32 = 16;

/// How long a blocked write waits at most before it is tried again.
const WRITE_WAIT_MILLIS: u64 = 1;

const DOOR: Token = Token(0);

fn token(side: Side) -> Token {
    match side {
        Side::Client => Token(1),
        Side::Host => Token(2),
    }
}

/// What the system has told of a side.
#[derive(Clone, Copy)]
struct Told {
    /// There is something to read, since the side was read.
    news: bool,
    /// The end comes behind what there is to read, of which nothing is told again.
    closed: bool,
}

impl Told {
    const NOTHING: Told = Told {
        news: false,
        closed: false,
    };

    fn tell(&mut self, closed: bool) {
        self.news = true;
        self.closed |= closed;
    }
}

/// The sockets that are waited for: to read in one set, and to write in the other. Both are edge-triggered, so
/// a caller looks at its socket before it waits.
#[derive(Drop)]
pub struct Ready {
    reading: Poll,
    writing: Poll,
    events: Events<Global>,
    client: Told,
    host: Told,
    // How many looks in a row have found nothing.
    quiet: u32,
    // How many times bytes came or went since the last wait.
    moves: u32,
    // How many waits behind that, in a row, weren't saved by looking without sleep.
    vain: u32,
    // How long a look waits that finds nothing, where that is asked.
    pace: Option<Pace>,
}

impl Ready {
    pub(crate) fn new<N: Net>(net: &N, alloc: Global) -> io::Result<Ready> {
        Ok(Ready {
            reading: Poll::new(net)?,
            writing: Poll::new(net)?,
            events: Events::with_capacity(alloc, 4)?,
            client: Told::NOTHING,
            host: Told::NOTHING,
            quiet: 0,
            moves: 0,
            vain: 0,
            pace: None,
        })
    }

    pub(crate) fn add_door(&self, door: &mut TcpListener) -> io::Result<()> {
        let reading = self.reading.registry();
        reading.register(door, DOOR, Interest::READABLE)
    }

    pub(crate) fn add(&mut self, side: Side, stream: &mut TcpStream) -> io::Result<()> {
        *self.told(side) = Told::NOTHING;
        let reading = self.reading.registry();
        reading.register(stream, token(side), Interest::READABLE)?;
        let writing = self.writing.registry();
        writing.register(stream, token(side), Interest::WRITABLE)
    }

    /// A look that finds nothing waits from now on to the end of such an interval, one after another.
    pub(crate) fn keep_pace(&mut self, interval: Duration) {
        self.pace = Some(Pace::new(interval));
    }

    /// Bytes came or went, or a link has ended.
    pub(crate) fn moved(&mut self) {
        self.quiet = 0;
        self.moves = self.moves.saturating_add(1);
    }

    /// The side is read now, so that what was told of it is done with.
    pub(crate) fn reads(&mut self, side: Side) {
        self.told(side).news = false;
    }

    /// Whether the system has told of something to read from the side since it was read, or of its end.
    pub(crate) fn is_told(&self, side: Side) -> bool {
        let told = match side {
            Side::Client => self.client,
            Side::Host => self.host,
        };
        told.news || told.closed
    }

    fn told(&mut self, side: Side) -> &mut Told {
        match side {
            Side::Client => &mut self.client,
            Side::Host => &mut self.host,
        }
    }

    /// A read from the side found nothing.
    pub(crate) fn drained(&mut self) {
        self.quiet = self.quiet.saturating_add(1);
    }

    /// A look found nothing. Waits for something to read if the last looks found nothing either, and says
    /// whether to look again. Where the system can't wait, both sides are to be read.
    pub(crate) fn found_nothing(&mut self, network: &impl Network) -> bool {
        self.quiet = self.quiet.saturating_add(1);
        let most = match &mut self.pace {
            Some(pace) => pace.left(network),
            None if self.quiet < QUIET_LOOKS => return false,
            None => Duration::from_millis(READ_WAIT_MILLIS),
        };
        if self.wait(most).is_err() {
            self.client.tell(false);
            self.host.tell(false);
        }
        for event in self.events.iter() {
            let closed = event.is_read_closed();
            if event.token() == token(Side::Client) {
                self.client.tell(closed);
            }
            if event.token() == token(Side::Host) {
                self.host.tell(closed);
            }
        }
        true
    }

    /// Waits for something to read, for so long at most. A peer on this machine answers sooner than a sleeper wakes, so
    /// behind a lone packet one looks for its answer first. Where that is in vain it is seldom tried. Where more came
    /// or went than one packet's bytes, more is under way, and what comes meanwhile goes on together.
    fn wait(&mut self, most: Duration) -> io::Result<()> {
        if self.moves > 0 && self.pace.is_none() {
            let is_lone = self.moves <= LONE_MOVES;
            self.moves = 0;
            if is_lone && self.is_worth_looking() && self.has_looked()? {
                self.vain = 0;
                return Ok(());
            }
            self.vain = self.vain.wrapping_add(1);
        }
        self.reading.poll(&mut self.events, Some(most))
    }

    fn is_worth_looking(&self) -> bool {
        self.vain < VAIN || self.vain % SELDOM == 0
    }

    /// Looks without sleeping, and says whether there is something.
    fn has_looked(&mut self) -> io::Result<bool> {
        for _ in 0..EAGER_LOOKS {
            self.reading.poll(&mut self.events, Some(Duration::ZERO))?;
            if !self.events.is_empty() {
                return Ok(true);
            }
        }
        Ok(false)
    }

    /// A write was blocked. Waits until something may be written, for a moment at most, and says whether it may.
    pub(crate) fn blocked(&mut self) -> bool {
        let most = Duration::from_millis(WRITE_WAIT_MILLIS);
        let waited = self.writing.poll(&mut self.events, Some(most));
        waited.is_ok() && !self.events.is_empty()
    }
}
