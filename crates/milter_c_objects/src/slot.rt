//! A place for an object, as the pointer that owns it.

ghost use Rattle.std.specs.Prelude.{◌≡◌, Option, Some, None, true, is_some};
ghost use Rattle.milter_c_objects.specs.Slot.{slot_owns};
ghost use Rattle.milter_c_objects.specs.declared.object.Object.{Object};
ghost use Rattle.milter_c_objects.specs.contracts.object.Object.{the_row as object_row};

use crate::object::Object;
use crate::raw_box::Loose;
use std::alloc::{Allocator, Global};
use std::marker::Model;

/// A place for an object: nothing, or a pointer that owns one on the heap. Its type doesn't name the object's, so that
/// it may stand in a parameter of an exported function.
#[repr(C)]
#[derive(Drop)]
pub struct Slot {
    at: *mut u8,
    alloc: Global,
    pub ghost object: { Option Object },
}

impl Model for Slot {
    ghost also_owns = { λ s. slot_owns (⟦<Global as Allocator>⟧.dealloc_token s.alloc) object_row s.at s.object };
}

// A slot may go to another thread, since its object may.
unsafe impl Send for Slot {}

impl Slot {
    ghost use Rattle.std.specs.Borrow.{sem};
    ghost use Rattle.milter_c_objects.specs.SlotBorrow.{object_follows};

    /// The slot that owns what the loose box does. Doesn't allocate.
    pub fn of(loose: Loose<Object, Global>) -> Slot
        ensures { result.object ≡ Some loose.value }
    {
        let Loose { at, alloc } = loose;
        Slot {
            at: at as *mut u8,
            alloc,
        }
    }

    /// A slot without an object. Doesn't allocate.
    pub fn empty(alloc: Global) -> Slot
        ensures { result.object ≡ None }
    {
        Slot {
            at: std::ptr::null_mut(),
            alloc,
        }
    }

    /// The object, borrowed. Doesn't allocate.
    pub fn as_mut(&mut self) -> &mut Object
        requires { is_some self.old.object ≡ true }
        ensures* writes_back { sem 𝓛 (object_follows self.entry result) }
        ensures value { Some result.now ≡ self.old.object }
    {
        unsafe { &mut *(self.at as *mut Object) }
    }

    /// The object as a loose box. Doesn't allocate.
    pub fn into_loose(self) -> Loose<Object, Global>
        requires { is_some self.object ≡ true }
        ensures { Some result.value ≡ self.object }
    {
        let Slot { at, alloc } = self;
        Loose {
            at: at as *mut Object,
            alloc,
        }
    }
}
