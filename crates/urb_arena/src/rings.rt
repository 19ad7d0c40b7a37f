//! Cells change their place in the rings.
ghost use Rattle.std.specs.Prelude.{◌≡◌, ◌<◌, length};
ghost use Rattle.urb_arena.specs.Inner.Turns.{Sound, link_at, with_next, with_prev, with_link, moved};

use crate::cells::{Base, Block, Links};

impl<T> Block<T> {
    /// The links of a cell that has some.
    pub(crate) fn link(&self, base: Base<T>, at: u32) -> Links
        requires { (base.ptr ≡ self.now.at) × Sound self.now.links × (at < length self.now.links) }
        ensures value { result ≡ link_at self.now.links at }
        ensures inside { (result.prev < length self.now.links) × (result.next < length self.now.links) }
    {
        self.links(base, at as usize)
    }

    pub(crate) fn write(&mut self, base: Base<T>, at: u32, links: Links)
        requires { (base.ptr ≡ self.old.at) × Sound self.old.links × (at < length self.old.links) × (links.prev < length self.old.links) × (links.next < length self.old.links) }
        ensures links { self.new.links ≡ with_link self.old.links at links }
        ensures sound { Sound self.new.links × (length self.new.links ≡ length self.old.links) }
        ensures rest { (self.new.at ≡ self.old.at) × (self.new.values ≡ self.old.values) }
    {
        self.set_links(base, at as usize, links)
    }

    pub(crate) fn set_next(&mut self, base: Base<T>, at: u32, next: u32)
        requires { (base.ptr ≡ self.old.at) × Sound self.old.links × (at < length self.old.links) × (next < length self.old.links) }
        ensures links { self.new.links ≡ with_next self.old.links at next }
        ensures sound { Sound self.new.links × (length self.new.links ≡ length self.old.links) }
        ensures rest { (self.new.at ≡ self.old.at) × (self.new.values ≡ self.old.values) }
    {
        let links = self.link(base, at);
        self.write(base, at, Links { next, ..links });
    }

    pub(crate) fn set_prev(&mut self, base: Base<T>, at: u32, prev: u32)
        requires { (base.ptr ≡ self.old.at) × Sound self.old.links × (at < length self.old.links) × (prev < length self.old.links) }
        ensures links { self.new.links ≡ with_prev self.old.links at prev }
        ensures sound { Sound self.new.links × (length self.new.links ≡ length self.old.links) }
        ensures rest { (self.new.at ≡ self.old.at) × (self.new.values ≡ self.old.values) }
    {
        let links = self.link(base, at);
        self.write(base, at, Links { prev, ..links });
    }

    /// Moves a cell to the back of the ring of `end`.
    pub(crate) fn shift(&mut self, base: Base<T>, at: u32, end: u32)
        requires { (base.ptr ≡ self.old.at) × Sound self.old.links × (at < length self.old.links) × (end < length self.old.links) }
        ensures links { self.new.links ≡ moved self.old.links at end }
        ensures sound { Sound self.new.links × (length self.new.links ≡ length self.old.links) }
        ensures rest { (self.new.at ≡ self.old.at) × (self.new.values ≡ self.old.values) }
    {
        let Links {
            prev,
            next,
            ring: _,
        } = self.link(base, at);
        self.set_next(base, prev, next);
        self.set_prev(base, next, prev);
        let last = self.link(base, end).prev;
        self.set_next(base, last, at);
        self.set_prev(base, end, at);
        self.write(
            base,
            at,
            Links {
                prev: last,
                next: end,
                ring: end,
            },
        );
    }
}
