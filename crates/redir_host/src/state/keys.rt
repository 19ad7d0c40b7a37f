//! The keys of a queue.

ghost use Rattle.std.specs.Prelude.{◌≡◌, ◌++◌, ◌∷◌, [], filter, is_some, not, ◌==◌, nat_le, IfSome, OnOk, OnErr};
ghost use Rattle.std.specs.List.{find, slice_get};
ghost use Rattle.slab.specs.Slab.{get};

use crate::state::request::Request;
use slab::Slab;
use std::alloc::Global;
use std::collections::VecDeque;
use std::marker::Model;
use usb_base::Memory;

/// The keys of a queue's requests, each with its number, by rising number; contracts see it as their list.
#[derive(Drop)]
pub struct Keys {
    keys: VecDeque<(u64, usize)>,
}

impl Model for Keys {
    ghost use Rattle.std.specs.Prelude.{List, ℕ};

    ghost Value = { List (ℕ × ℕ) };

    ghost view = { λ keys. keys.keys.items };
}

impl Keys {
    /// No key.
    pub fn new(alloc: Global) -> Self
        ensures { result ≡ [] }
    {
        Keys {
            keys: VecDeque::new(alloc),
        }
    }

    /// The first.
    pub fn first(&self) -> Option<(u64, usize)>
        ensures { result ≡ slice_get self.now 0 }
    {
        self.keys.front().copied()
    }

    /// The first from a number on.
    pub fn first_from(&self, number: u64) -> Option<(u64, usize)>
        ensures { result ≡ find (λ e. nat_le number e.0) self.now }
    {
        self.keys
            .iter()
            .copied()
            .find(|(other, _)| number <= *other)
    }

    /// Puts a key behind those that are there. For want of memory nothing has changed.
    pub fn push(&mut self, number: u64, key: usize) -> Result<(), Memory>
        ensures ok { OnOk result (self.new ≡ self.old ++ (number, key) ∷ []) }
        ensures err { OnErr result (self.new ≡ self.old) }
    {
        self.keys.push_back((number, key))?;
        Ok(())
    }

    /// Takes the first out.
    pub fn pop(&mut self) -> Option<(u64, usize)>
        ensures first { result ≡ slice_get self.old 0 }
        ensures rest { IfSome result (λ e. self.old ≡ e ∷ self.new) }
    {
        self.keys.pop_front()
    }

    /// Takes the key of a number out.
    pub fn remove(&mut self, number: u64)
        ensures { self.new ≡ filter (λ e. not (e.0 == number)) self.old }
    {
        self.keys.retain(|(other, _)| *other != number);
    }

    /// Takes out those under which nothing is any more.
    pub fn retain(&mut self, requests: &Slab<Request>)
        ensures { self.new ≡ filter (λ e. is_some (get requests.now e.1)) self.old }
    {
        self.keys.retain(|(_, key)| requests.contains(*key));
    }
}
