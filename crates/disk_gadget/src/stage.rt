//! What the disk keeps beside its blocks.

ghost use Rattle.std.specs.Prelude.{◌≡◌, ◌≤◌, length, IfOk};
ghost use Rattle.chapter9.specs.Standard.{success};
ghost use Rattle.disk_gadget.specs.Descriptors.{fresh};
ghost use Rattle.disk_gadget.specs.DiskStep.{outcome_in};
ghost use Rattle.disk_gadget.specs.Turns.{cut_answer, given_of, left_of, rest_of};
ghost use Rattle.disk_gadget.specs.Within.{GivenFits, PlaceWithin};

use crate::medium::{BLOCK_SIZE, Medium};
use crate::report::Report;
use crate::sense::Sense;
use crate::wrapper::Wrapper;
use std::alloc::Global;
use usb_base::{Bytes, Memory};

/// What is still to be given of a command's answer.
#[derive(Drop)]
pub enum Answer {
    /// These bytes.
    Text(Bytes),
    /// Bytes of the blocks from this one on: how many were given, and how many are left.
    Blocks { block: u32, given: u32, left: u32 },
}

impl Answer {
    /// How many bytes are left.
    pub fn left(&self) -> usize
        ensures { result ≡ left_of self.now }
    {
        match self {
            Answer::Text(rest) => rest.len(),
            Answer::Blocks { left, .. } => *left as usize,
        }
    }

    /// The next `count` of them.
    pub fn bytes(&self, alloc: Global, medium: &Medium, count: u32) -> Result<Bytes, Memory>
        requires count { count ≤ left_of self.now }
        requires within { PlaceWithin (length medium.now) self.now }
        ensures bytes { IfOk result (λ bytes. outcome_in medium.now (given_of count self.now) ≡ success bytes) }
        ensures count { IfOk result (λ bytes. length bytes ≡ count) }
    {
        let piece = match self {
            Answer::Text(rest) => &rest.as_slice()[..count as usize],
            Answer::Blocks { block, given, .. } => {
                medium.part(
                    BLOCK_SIZE * *block as usize + *given as usize,
                    count as usize,
                )
            }
        };
        let mut bytes = Bytes::new(alloc);
        bytes.append(piece)?;
        Ok(bytes)
    }

    /// Takes off the first `count` of them, which were given.
    pub fn skip(&mut self, count: u32)
        requires count { count ≤ left_of self.old }
        requires fits { GivenFits self.old }
        ensures { self.new ≡ rest_of count self.old }
    {
        match self {
            Answer::Text(rest) => rest.skip(count as usize),
            Answer::Blocks { given, left, .. } => {
                *given += count;
                *left -= count;
            }
        }
    }

    /// At most the first `length` of them.
    pub fn cut(self, length: u32) -> Answer
        ensures { result ≡ cut_answer length self }
    {
        match self {
            Answer::Text(mut rest) => {
                rest.cut(rest.len().min(length as usize));
                Answer::Text(rest)
            }
            Answer::Blocks { block, given, left } => Answer::Blocks {
                block,
                given,
                left: left.min(length),
            },
        }
    }
}

/// What is due (Bulk-Only Transport, 5.3).
#[derive(Drop)]
pub enum Stage {
    /// A command wrapper.
    Waits,
    /// Data of the host, of which these have come.
    Gathers(Wrapper, Bytes),
    /// Data of an answer, and then this status, whose residue is what isn't given yet.
    Gives(Answer, Report),
    /// A status.
    Reports(Report),
}

/// Where a command stands, and why the last one failed whose sense wasn't fetched.
#[derive(Drop)]
pub struct Course {
    pub stage: Stage,
    pub sense: Option<Sense>,
}

impl Course {
    /// That of a disk that was just plugged in.
    pub fn fresh() -> Course
        ensures { result ≡ fresh }
    {
        Course {
            stage: Stage::Waits,
            sense: None,
        }
    }
}
