//! Bytes by the words that lay them out: packets, descriptors and setups by name, and their fields in wire order. And
//! rows of text, each of which is a line. What the rows of programs name, too, stands in `named_packets`.

use hex::FromHexError;
use named_packets::{Packets, is_row};
use std::alloc::{AllocError, Global};
use std::process::Abort;
use std::test::Fail;
use usb_base::{Bytes, Memory, Setup};

/// What has a name here alone, as `Packets::add_all` takes it.
const NAMED: &str = "
    # A guest that announces nothing, as its host reads it: ids have four bytes, and a bulk length two.
    GH0 00000000 40000000 00000000 00*64
    # The id of a packet that has no name.
    ID @
    # The descriptors of a device, of its configuration, and of its name.
    DEVICE 12010002 00000040 f0ff0200 00010001 0001
    CONFIGURATION 0902200001010080 32 0904000002ff000000 07050102000200 07058102000200
    NAME 0a03 6c00 6f00 6f00 7000
    # Setups.
    CLEARCONFIGSETUP 0009000000000000
    HALTINSETUP 0203000081000000
    CLEARHALTINSETUP 0201000081000000
    HALTOUTSETUP 0203000001000000
";

/// What has a name, and the memory in which it is laid out.
#[derive(Drop)]
pub struct Names {
    pub alloc: Global,
    packets: Packets,
}

impl Names {
    /// What the rows of this crate name, and what programs share.
    pub fn new(alloc: Global) -> Result<Names, Memory> {
        let mut packets = Packets::new(alloc)?;
        packets.add_all(alloc, NAMED)?;
        Ok(Names { alloc, packets })
    }

    /// The digits of words, with spaces between them.
    fn digits(&self, words: &str) -> Result<String, Memory> {
        let mut digits = String::new(self.alloc);
        for word in words.split(' ') {
            self.packets.push(&mut digits, word, 0)?;
        }
        Ok(digits)
    }

    /// The bytes of words. Those that are none stand for their letters, which are no packet.
    pub fn bytes(&self, words: &str) -> Result<Bytes, Memory> {
        let digits = self.digits(words)?;
        match hex::decode(self.alloc, digits.as_str()) {
            Ok(decoded) => Bytes::copied(self.alloc, &decoded),
            Err(FromHexError::OutOfMemory) => Err(AllocError.into()),
            Err(_) => Bytes::copied(self.alloc, digits.as_bytes()),
        }
    }

    /// The setup of such words.
    pub fn setup(&self, words: &str) -> Result<Setup, Fail> {
        Ok(Setup::read(self.bytes(words)?.as_slice().try_into()?))
    }
}

/// What is done, row by row, and says what came of it.
pub trait GoesByRows: Drop {
    /// Whether it goes as this row says.
    fn goes(&mut self, names: &Names, row: &str) -> Result<bool, Fail>;
}

/// The first row that it doesn't go by.
fn wrong_row<S: GoesByRows>(
    names: &Names,
    subject: &mut S,
    rows: &'static str,
) -> Result<&'static str, Fail> {
    for line in rows.lines() {
        let row = line.trim();
        if is_row(row) && !subject.goes(names, row)? {
            return Ok(row);
        }
    }
    Ok("")
}

/// It goes by all rows. The first that it doesn't go by is told.
pub fn goes_by<R: Abort, S: GoesByRows>(
    rt: &R,
    alloc: Global,
    subject: S,
    rows: &'static str,
) -> Result<(), Fail> {
    let names = Names::new(alloc)?;
    let mut subject = subject;
    assert_eq!(rt; wrong_row(&names, &mut subject, rows)?, "");
    Ok(())
}
