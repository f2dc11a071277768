//! A box that is taken apart: where its value stands, and what gives the room back.
ghost use Rattle.std.specs.Prelude.{◌≡◌};
ghost use Rattle.std.specs.Box.Ownership.{box_owns};

use std::alloc::Allocator;
use std::marker::Model;

/// The two fields of a box. It owns what the box owned.
pub(crate) struct Unboxed<T, A: Allocator> {
    pub(crate) at: *mut T,
    pub(crate) alloc: A,
    pub(crate) ghost value: { T },
}

impl<T, A: Allocator> Model for Unboxed<T, A> {
    ghost also_owns = { λ u. box_owns (A.dealloc_token u.alloc) T.row u.at u.value };
}

impl<T, A: Allocator> Unboxed<T, A> {
    /// The box, taken apart.
    pub(crate) fn of(boxed: Box<T, A>) -> Unboxed<T, A>
    where
        T: Drop,
        ensures { result.value ≡ boxed.value }
    {
        let (at, alloc) = Box::into_raw_with_allocator(boxed);
        Unboxed { at, alloc }
    }

    /// The box, put together again.
    pub(crate) fn into_box(self) -> Box<T, A>
        ensures { result.value ≡ self.value }
    {
        let Unboxed { at, alloc } = self;
        unsafe { Box::from_raw(alloc, at) }
    }
}
