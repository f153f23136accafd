//! One value in a block of memory of its own. Five functions touch pointers: `take`, `fill`, `free`,
//! `as_ref` and `as_mut`.

ghost use Rattle.std.specs.Prelude.{◌≡◌, MatchResult};
ghost use Rattle.std.specs.Borrow.{sem};
ghost use denote.Struct.Lending.{lent_at};
ghost use Rattle.lt_page.specs.Block.{room_owns, block_owns};

use std::alloc::Allocator;
use std::marker::Model;
use std::mem::{align_of, size_of};

/// A block with room for a value, and the allocator that it goes back to.
pub(super) struct Vacant<T, A: Allocator> {
    at: *mut T,
    alloc: A,
}

impl<T, A: Allocator> Model for Vacant<T, A> {
    ghost also_owns = { λ room. room_owns (A.dealloc_token room.alloc) T.row room.at };
}

impl<T, A: Allocator> Vacant<T, A> {
    /// A block from the allocator, which comes back where there is no memory.
    pub(super) fn take(alloc: A) -> Result<Vacant<T, A>, A>
        ensures { MatchResult result (λ room. room.alloc ≡ alloc) (λ back. back ≡ alloc) }
    {
        match alloc.allocate(size_of::<T>(), align_of::<T>()) {
            Ok(at) => Ok(Vacant {
                at: at as *mut T,
                alloc,
            }),
            Err(_) => Err(alloc),
        }
    }

    /// The block with this value in it.
    pub(super) fn fill(self, value: T) -> Block<T, A>
        ensures { result.value ≡ value }
    {
        let Vacant { at, alloc } = self;
        unsafe {
            at.write(value);
        }
        Block { at, alloc }
    }
}

/// A value in a block, which goes back to its allocator at the end. The value itself is not dropped, so
/// it is to be one that needs no drop.
pub(super) struct Block<T, A: Allocator> {
    at: *mut T,
    alloc: A,
    pub(super) ghost value: { T },
}

impl<T, A: Allocator> Model for Block<T, A> {
    ghost also_owns = { λ block. block_owns (A.dealloc_token block.alloc) T.row block.at block.value };

    ghost also_shares = { λ block _ κ. lent_at T.row block.at block.value κ };
}

impl<T, A: Allocator> Block<T, A> {
    ghost use Rattle.lt_page.specs.Follows.{block_follows};

    /// Gives the block back.
    fn free(self) -> A
        ensures { result ≡ self.alloc }
    {
        unsafe {
            self.alloc
                .deallocate(self.at as *mut u8, size_of::<T>(), align_of::<T>());
        }
        let Block { at: _, alloc } = self;
        alloc
    }

    pub(super) fn as_ref(&self) -> &T
        ensures { result.now ≡ self.now.value }
    {
        unsafe { &*self.at }
    }

    pub(super) fn as_mut(&mut self) -> &mut T
        ensures* writes_back { sem 𝓛 (block_follows T.row A.row A.Allocator self.entry result) }
        ensures value { result.now ≡ self.old.value }
    {
        unsafe { &mut *self.at }
    }
}

impl<T, A: Allocator + Drop> Drop for Block<T, A> {
    fn drop(self) {
        drop(self.free());
    }
}
