//! The block: cells of links and a value, each part of a cell there or bare.
ghost use Rattle.std.specs.Prelude.{◌≡◌, ℕ, ◌<◌, ◌*◌, List, Option, Some, None, length, replicate, get_or, slice_set, IfOk, ⊤};
ghost use Rattle.std.specs.Borrow.{sem};
ghost use Rattle.std.specs.Vec.Ownership.{FitsInBlock};
ghost use base.Fml.{ftrue};
ghost use Rattle.urb_arena.specs.contracts.cells.Cell.{the_row as cell_row};
ghost use denote.RawPtr.{Ptr};
ghost use Rattle.urb_arena.specs.Inner.Columns.{There};
ghost use Rattle.urb_arena.specs.declared.cells.Links.{Links};
ghost use Rattle.urb_arena.specs.Inner.Ownership.{block_own, block_lent, deed_owns};

use std::alloc::{AllocError, Allocator};
use std::marker::{Model, PhantomData};
use std::mem::{align_of, size_of};

/// Where a cell's neighbours stand, and in which ring it is.
#[derive(Drop, Clone, Copy)]
pub struct Links {
    pub prev: u32,
    pub next: u32,
    pub ring: u32,
}

/// A cell as it lies in the block. None is ever made whole.
pub struct Cell<T> {
    links: Links,
    value: T,
}

/// The first cell's address, free to copy: what lies there belongs to a `Block`.
pub struct Base<T> {
    ptr: *mut Cell<T>,
}

impl<T> Clone for Base<T> {
    ghost is_clone = { λ x y. y ≡ x };

    ghost is_infallible = { λ _. ⊤ };

    fn clone(&self) -> Result<Base<T>, AllocError> {
        Ok(*self)
    }
}

impl<T> Copy for Base<T> {}

/// All links and values that lie in the cells, as two columns.
pub struct Block<T> {
    mark: PhantomData<*const T>,
    ghost at: { Ptr },
    ghost links: { List (Option Links) },
    ghost values: { List (Option T) },
}

impl<T> Model for Block<T> {
    ghost also_owns = { λ c. block_own T.row c.at c.links c.values };

    ghost also_shares = { λ c _ κ. block_lent T.row c.at c.links c.values κ };
}

/// Proof that `alloc` lent the `len` cells at `at`, which it takes back.
pub struct Deed<T, A: Allocator> {
    mark: PhantomData<*const (T, A)>,
    ghost at: { Ptr },
    ghost len: { ℕ },
    ghost alloc: { A },
}

impl<T, A: Allocator> Model for Deed<T, A> {
    ghost also_owns = { λ d. deed_owns T.row (A.dealloc_token d.alloc) d.at d.len };

    ghost also_shares = { λ _ _ _. ftrue };
}

pub(crate) fn allocate<T, A: Allocator>(
    alloc: &A,
    len: usize,
) -> Result<(Base<T>, Block<T>, Deed<T, A>), AllocError>
    requires { FitsInBlock (cell_row T.row) len }
    ensures { IfOk result (λ r. (r.1.at ≡ r.0.ptr) × (r.1.links ≡ replicate len None) × (r.1.values ≡ replicate len None) × (r.2.at ≡ r.0.ptr) × (r.2.len ≡ len) × (r.2.alloc ≡ alloc.now)) }
{
    match alloc.allocate(len * size_of::<Cell<T>>(), align_of::<Cell<T>>()) {
        Ok(block) => {
            let ptr = block as *mut Cell<T>;
            Ok((
                Base { ptr },
                Block { mark: PhantomData },
                Deed { mark: PhantomData },
            ))
        }
        Err(error) => Err(error),
    }
}

/// Bare cells go back: links that are there are forgotten with them.
pub(crate) fn deallocate<T, A: Allocator>(
    alloc: &A,
    base: Base<T>,
    len: usize,
    block: Block<T>,
    deed: Deed<T, A>,
)
    requires { (block.at ≡ base.ptr) × (length block.links ≡ len) × (block.values ≡ replicate len None) × (deed.at ≡ base.ptr) × (deed.len ≡ len) × (deed.alloc ≡ alloc.now) }
{
    let Block { mark: _ } = block;
    let Deed { mark: _ } = deed;
    unsafe {
        alloc.deallocate(
            base.ptr as *mut u8,
            len * size_of::<Cell<T>>(),
            align_of::<Cell<T>>(),
        );
    }
}

impl<T> Block<T> {
    ghost use Rattle.urb_arena.specs.Inner.Lends.{lends_value};

    /// Moves a value into a bare cell.
    pub(crate) fn put(&mut self, base: Base<T>, at: usize, value: T)
        requires { (base.ptr ≡ self.old.at) × (at < length self.old.links) × (at < length self.old.values) × (get_or self.old.values at None ≡ None) }
        ensures { (self.new.at ≡ self.old.at) × (self.new.links ≡ self.old.links) × (self.new.values ≡ slice_set self.old.values at (Some value)) }
    {
        unsafe { (&raw mut (*base.ptr.add(at)).value).write(value) }
    }

    /// Moves the value out, which leaves the cell bare.
    pub(crate) fn take(&mut self, base: Base<T>, at: usize) -> T
        requires { (base.ptr ≡ self.old.at) × (at < length self.old.links) × There self.old.values at }
        ensures value { get_or self.old.values at None ≡ Some result }
        ensures rest { (self.new.at ≡ self.old.at) × (self.new.links ≡ self.old.links) × (self.new.values ≡ slice_set self.old.values at None) }
    {
        unsafe { (&raw const (*base.ptr.add(at)).value).read() }
    }

    /// The links of the cell.
    pub(crate) fn links(&self, base: Base<T>, at: usize) -> Links
        requires { (base.ptr ≡ self.now.at) × There self.now.links at }
        ensures { get_or self.now.links at None ≡ Some result }
    {
        unsafe { (*base.ptr.add(at)).links }
    }

    /// Writes the links of the cell, which may have had none.
    pub(crate) fn set_links(&mut self, base: Base<T>, at: usize, links: Links)
        requires { (base.ptr ≡ self.old.at) × (at < length self.old.links) }
        ensures { (self.new.at ≡ self.old.at) × (self.new.links ≡ slice_set self.old.links at (Some links)) × (self.new.values ≡ self.old.values) }
    {
        unsafe { (*base.ptr.add(at)).links = links }
    }

    /// The value, to read.
    pub(crate) fn lend(&self, base: Base<T>, at: usize) -> &T
        requires { (base.ptr ≡ self.now.at) × (at < length self.now.links) × There self.now.values at }
        ensures { get_or self.now.values at None ≡ Some result.now }
    {
        unsafe { &(*base.ptr.add(at)).value }
    }

    /// The value, to write.
    pub(crate) fn lend_mut(&mut self, base: Base<T>, at: usize) -> &mut T
        requires { (base.ptr ≡ self.old.at) × (at < length self.old.links) × There self.old.values at }
        ensures* writes_back { sem 𝓛 (lends_value T.row self.entry at result) }
        ensures value { get_or self.old.values at None ≡ Some result.now }
    {
        unsafe { &mut (*base.ptr.add(at)).value }
    }
}
