//! The blocks, as one run of bytes.

ghost use Rattle.std.specs.Prelude.{◌≡◌, ◌≤◌, ◌+◌, ◌*◌, length, replicate, IfOk};
ghost use Rattle.usb_base.specs.Number.{part};
ghost use Rattle.disk_gadget.specs.Accesses.{count_of, put};

use std::alloc::Global;
use std::marker::Model;
use usb_base::Memory;

/// How many bytes a block has.
pub const BLOCK_SIZE: usize = 512;

/// How many blocks a disk has at most.
pub const MAX_BLOCKS: u32 = 4_096;

/// All blocks of a disk. Contracts see their bytes.
#[derive(Drop)]
pub struct Medium {
    bytes: Vec<u8>,
}

impl Model for Medium {
    ghost use Rattle.std.specs.Prelude.{ℕ, ◌≤◌, ◌*◌, List, length};
    ghost use Rattle.disk_gadget.specs.declared.medium.TheConstants.{BLOCK_SIZE, MAX_BLOCKS};

    ghost Value = { List ℕ };

    ghost view = { λ m. m.bytes.items };

    ghost invariant = { λ m. length m.bytes.items ≤ BLOCK_SIZE * MAX_BLOCKS };
}

impl Medium {
    /// So many blocks of zeros.
    pub fn zeros(alloc: Global, blocks: u32) -> Result<Medium, Memory>
        requires { blocks ≤ MAX_BLOCKS }
        ensures { IfOk result (λ made. made ≡ replicate (BLOCK_SIZE * blocks) 0) }
    {
        let bytes = vec![in alloc; 0; BLOCK_SIZE * blocks as usize]?;
        Ok(Medium { bytes })
    }

    /// How many blocks there are.
    pub fn count(&self) -> u32
        ensures count { result ≡ count_of self.now }
        ensures few { result ≤ MAX_BLOCKS }
    {
        (self.bytes.len() / BLOCK_SIZE) as u32
    }

    /// Some of the bytes.
    pub fn part(&self, at: usize, len: usize) -> &[u8]
        requires { at + len ≤ length self.now }
        ensures { result.now ≡ part at len self.now }
    {
        &self.bytes[at..at + len]
    }

    /// Puts bytes in the place of as many.
    pub fn put(&mut self, at: usize, bytes: &[u8])
        requires { at + length bytes.now ≤ length self.old }
        ensures { self.new ≡ put at bytes.now self.old }
    {
        self.bytes[at..at + bytes.len()].copy_from_slice(bytes);
    }
}
