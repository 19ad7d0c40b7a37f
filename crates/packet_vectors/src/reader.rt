//! The readers, by their words.

ghost use Rattle.std.specs.Prelude.{◌≡◌, Ok};

use crate::output::Output;
use packet_stream::{Read, ReadError};
use redir_data::read_redir;
use redir_wire::{Caps, RedirState, Way, read_header};
use std::alloc::Global;
use usbip_op::{OpWay, read_op, read_request};
use usbip_urb::{read_client, read_ret, read_urb};

/// What decides how a usbredir packet is read.
#[derive(Clone, Copy)]
pub struct Setting {
    /// What its stream has told so far.
    pub state: RedirState,
    pub way: Way,
}

/// A reader, with what it is told beside the bytes.
#[derive(Clone, Copy)]
pub enum Reader {
    Client,
    Urb,
    /// Whether the request was IN.
    Ret(bool),
    Request,
    Op(OpWay),
    Header(Setting),
    Redir(Setting),
}

/// What a reader answers, but for the packet.
#[derive(Clone, Copy, PartialEq, Eq)]
pub enum Told {
    /// A packet of so many bytes.
    Whole(usize),
    Short,
    Wrong(ReadError),
}

impl Reader {
    /// The reader of this name, with this setting.
    pub fn named(name: &str, setting: &str, out: &mut Output) -> Reader {
        match name {
            "client" => Reader::Client,
            "urb" => Reader::Urb,
            "ret" => Reader::Ret(is_in(setting, out)),
            "request" => Reader::Request,
            "op" => Reader::Op(op_way(setting, out)),
            "header" => Reader::Header(Setting::of(setting, out)),
            "redir" => Reader::Redir(Setting::of(setting, out)),
            _ => {
                out.refuse();
                Reader::Request
            }
        }
    }

    /// What it answers for these bytes.
    pub fn told(self, alloc: Global, bytes: &[u8]) -> Told {
        match self {
            Reader::Client => told_by(read_client(alloc, bytes)),
            Reader::Urb => told_by(read_urb(alloc, bytes)),
            Reader::Ret(is_in) => told_by(read_ret(alloc, is_in, bytes)),
            Reader::Request => told_by(read_request(bytes)),
            Reader::Op(way) => told_by(read_op(alloc, way, bytes)),
            Reader::Header(Setting { state, way }) => told_by(read_header(state, way, bytes)),
            Reader::Redir(Setting { state, way }) => told_by(read_redir(alloc, state, way, bytes)),
        }
    }
}

/// What this answer says, but for the packet.
pub fn told_by<P: Drop>(read: Result<Read<P>, ReadError>) -> Told
    ensures { result ≡ Told.Short → read ≡ Ok Read.Short }
{
    match read {
        Ok(Read::Whole(_, size)) => Told::Whole(size),
        Ok(Read::Short) => Told::Short,
        Err(error) => Told::Wrong(error),
    }
}

/// Whether a direction is IN.
pub fn is_in(direction: &str, out: &mut Output) -> bool {
    if direction != "in" && direction != "out" {
        out.refuse();
    }
    direction == "in"
}

fn op_way(way: &str, out: &mut Output) -> OpWay {
    match way {
        "request" => OpWay::Request,
        "reply" => OpWay::Reply,
        _ => {
            out.refuse();
            OpWay::Request
        }
    }
}

impl Setting {
    /// The setting of words: the way, the agreed capabilities in hexadecimal, and `first` where the hello is to come.
    pub fn of(words: &str, out: &mut Output) -> Setting {
        let mut parts = words.split_whitespace();
        let way = redir_way(parts.next().unwrap_or(""), out);
        let caps = caps_of(parts.next().unwrap_or(""), out);
        let first = parts.next() == Some("first");
        Setting {
            state: RedirState { first, caps },
            way,
        }
    }
}

/// The way of this name.
pub fn redir_way(way: &str, out: &mut Output) -> Way {
    match way {
        "guest" => Way::ToGuest,
        "host" => Way::ToHost,
        _ => {
            out.refuse();
            Way::ToGuest
        }
    }
}

/// Capabilities, of which bit n says that capability n is there, in hexadecimal.
pub fn caps_of(digits: &str, out: &mut Output) -> Caps {
    Caps(out.read(u32::from_str_radix(digits, 16)))
}
