//! A box as the pointer that it is, for places whose layout a caller in C sees.

ghost use Rattle.std.specs.Prelude.{◌≡◌};
ghost use Rattle.std.specs.Box.Ownership.{box_owns};

use std::alloc::Allocator;
use std::marker::Model;

/// A pointer that owns a value on the heap, with the allocator that it is from.
pub struct Loose<T, A: Allocator> {
    /// Where the value is.
    pub at: *mut T,
    /// The allocator.
    pub alloc: A,
    pub ghost value: { T },
}

impl<T, A: Allocator> Model for Loose<T, A> {
    ghost also_owns = { λ l. box_owns (A.dealloc_token l.alloc) T.row l.at l.value };
}

impl<T: Drop, A: Allocator> Loose<T, A> {
    /// The pointer of a box. Doesn't allocate.
    pub fn of(value: Box<T, A>) -> Loose<T, A>
        ensures { result.value ≡ value.value }
    {
        let (at, alloc) = Box::into_raw_with_allocator(value);
        Loose { at, alloc }
    }

    /// The box of the pointer. Doesn't allocate.
    pub fn into_box(self) -> Box<T, A>
        ensures { result.value ≡ self.value }
    {
        let Loose { at, alloc } = self;
        unsafe { Box::from_raw(alloc, at) }
    }
}
