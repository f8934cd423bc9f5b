//! A box as its pointer.

ghost use Rattle.std.specs.Prelude.{◌≡◌};
ghost use Rattle.std.specs.Box.Ownership.{box_owns};

use std::alloc::Allocator;
use std::marker::Model;

pub(crate) struct RawBox<T, A: Allocator> {
    pub(crate) at: *mut T,
    pub(crate) alloc: A,
    pub(crate) ghost value: { T },
}

impl<T, A: Allocator> Model for RawBox<T, A> {
    ghost also_owns = { λ b. box_owns (A.dealloc_token b.alloc) T.row b.at b.value };
}

impl<T: Drop, A: Allocator> RawBox<T, A> {
    pub(crate) fn of(value: Box<T, A>) -> RawBox<T, A>
        ensures { result.value ≡ value.value }
    {
        let (at, alloc) = Box::into_raw_with_allocator(value);
        RawBox { at, alloc }
    }

    pub(crate) fn into_box(self) -> Box<T, A>
        ensures { result.value ≡ self.value }
    {
        let RawBox { at, alloc } = self;
        unsafe { Box::from_raw(alloc, at) }
    }
}
