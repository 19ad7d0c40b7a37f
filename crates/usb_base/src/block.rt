//! Blocks of memory, of whose bytes some count for nothing.

ghost use Rattle.std.specs.Prelude.{◌≡◌, ◌+◌, ◌-◌, ◌++◌, ◌≤◌, ◌<◌, length, take, drop, OnOk, OnErr};
ghost use Rattle.usb_base.specs.Incoming.{HasCome};

use crate::incoming::Incoming;
use crate::memory::Memory;

/// Puts a piece at a place, over what stands there. What stands behind it stays.
#[inline]
pub fn put_at(block: &mut Vec<u8>, place: usize, piece: &[u8]) -> Result<(), Memory>
    requires { place ≤ length block.old.items }
    ensures ok { OnOk result (take (place + length piece.now) block.new.items ≡ take place block.old.items ++ piece.now) }
    ensures len { OnOk result (place + length piece.now ≤ length block.new.items) }
    ensures err { OnErr result (block.new.items ≡ block.old.items) }
    ensures wants { OnErr result (0 < length piece.now) }
{
    let room = block.len() - place;
    if piece.len() > room {
        return put_past_end(block, place, piece);
    }
    block[place..place + piece.len()].copy_from_slice(piece);
    Ok(())
}

/// Puts a piece at a place from which on less stands than it has.
#[cold]
#[inline(never)]
fn put_past_end(block: &mut Vec<u8>, place: usize, piece: &[u8]) -> Result<(), Memory>
    requires place { place ≤ length block.old.items }
    requires past { length block.old.items < place + length piece.now }
    ensures ok { OnOk result (take (place + length piece.now) block.new.items ≡ take place block.old.items ++ piece.now) }
    ensures len { OnOk result (place + length piece.now ≤ length block.new.items) }
    ensures err { OnErr result (block.new.items ≡ block.old.items) }
{
    let (over, behind) = piece.split_at(block.len() - place);
    block.extend_from_slice(behind)?;
    block[place..place + over.len()].copy_from_slice(over);
    Ok(())
}

/// Has bytes come to a place, at most `limit` of them, and says how many did.
pub fn read_at<I: Incoming>(block: &mut [u8], place: usize, limit: usize, incoming: &mut I) -> usize
    requires within { place + limit ≤ length block.old }
    requires ready { I.can_read incoming.old limit }
    ensures { (came : HasCome I.read_gives limit result incoming.old incoming.new) × (take (place + result) block.new ≡ take place block.old ++ take result came.room) }
{
    incoming.read_into(&mut block[place..place + limit])
}

/// Moves the bytes up to `end` that begin at `from` to a place before.
pub fn move_to(block: &mut Vec<u8>, from: usize, end: usize, place: usize)
    requires before { place ≤ from }
    requires some { from ≤ end }
    requires within { end ≤ length block.old.items }
    ensures len { length block.new.items ≡ length block.old.items }
    ensures bytes { take (place + (end - from)) block.new.items ≡ take place block.old.items ++ drop from (take end block.old.items) }
{
    block.copy_within(from..end, place);
}

/// Makes it at least so long.
pub fn lengthen(block: &mut Vec<u8>, len: usize) -> Result<(), Memory>
    ensures ok { OnOk result (len ≤ length block.new.items) }
    ensures stands { take (length block.old.items) block.new.items ≡ block.old.items }
{
    if block.len() < len {
        block.resize(len, 0)?;
    }
    Ok(())
}
