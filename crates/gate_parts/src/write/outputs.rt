//! What an event gives: the bytes for each side, and what is told.

ghost use Rattle.std.specs.Prelude.{◌≡◌, []};
ghost use Rattle.gate_parts.specs.write.Outputs.{lengths_of, first_of, ReachesLengths};

use gate_history::Notes;
use std::alloc::Global;
use std::mem::swap;
use usb_base::Bytes;

/// What is sent to each side, and what is told.
#[derive(Drop)]
pub struct Outputs {
    pub to_client: Bytes,
    pub to_host: Bytes,
    pub notes: Notes,
}

/// How much of each there was.
#[derive(Clone, Copy)]
pub struct Lengths {
    to_client: usize,
    to_host: usize,
    notes: usize,
}

impl Outputs {
    /// Nothing is sent, and nothing told.
    pub fn new(alloc: Global) -> Outputs
        ensures { result ≡ record { to_client = []; to_host = []; notes = [] } }
    {
        Outputs {
            to_client: Bytes::new(alloc),
            to_host: Bytes::new(alloc),
            notes: Notes::new(alloc),
        }
    }

    /// Exchanges what is sent with these lists: before an event, which so appends to what stood in them, and after it.
    pub fn exchange(&mut self, to_client: &mut Bytes, to_host: &mut Bytes)
        ensures outputs { self.new ≡ record self.old { to_client = to_client.old; to_host = to_host.old } }
        ensures client { to_client.new ≡ self.old.to_client }
        ensures host { to_host.new ≡ self.old.to_host }
    {
        swap(&mut self.to_client, to_client);
        swap(&mut self.to_host, to_host);
    }

    /// How much there is of each.
    pub fn lengths(&self) -> Lengths
        ensures { result ≡ lengths_of self.now }
    {
        Lengths {
            to_client: self.to_client.len(),
            to_host: self.to_host.len(),
            notes: self.notes.len(),
        }
    }

    /// Keeps the first of each, up to these lengths: what came behind them is undone.
    pub fn back_to(&mut self, lengths: Lengths)
        requires { ReachesLengths lengths self.old }
        ensures { self.new ≡ first_of lengths self.old }
    {
        self.to_client.cut(lengths.to_client);
        self.to_host.cut(lengths.to_host);
        self.notes.cut(lengths.notes);
    }
}
