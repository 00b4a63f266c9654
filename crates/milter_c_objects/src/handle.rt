//! What a caller in C keeps: a handle, with one object or none.

ghost use Rattle.std.specs.Prelude.{◌≡◌, Some, None, OnOk, OnErr, is_some, option_map};

use crate::object::Object;
use crate::raw_box::Loose;
use crate::slot::Slot;
use milter_fields::NoMemory;
use std::alloc::Global;

/// A place for an object, and whether one is there. One whose bytes are all zero is empty.
#[repr(C)]
#[derive(Drop)]
pub struct Handle {
    /// The place.
    pub slot: Slot,
    /// Whether an object is there.
    pub full: bool,
    ghost has_object: { is_some slot.object ≡ full },
}

impl Handle {
    /// An empty handle. Doesn't allocate.
    pub fn empty(alloc: Global) -> Handle
        ensures { result.slot.object ≡ None }
    {
        Handle {
            slot: Slot::empty(alloc),
            full: false,
        }
    }

    /// A handle with this object. Doesn't allocate.
    pub fn of(object: Box<Object, Global>) -> Handle
        ensures { result.slot.object ≡ Some object.value }
    {
        Handle {
            slot: Slot::of(Loose::of(object)),
            full: true,
        }
    }

    /// Its object, where it has one. Doesn't allocate.
    pub fn into_box(self) -> Option<Box<Object, Global>>
        ensures { option_map (λ object. object.value) result ≡ self.slot.object }
    {
        let Handle { slot, full } = self;
        if full {
            Some(slot.into_loose().into_box())
        } else {
            None
        }
    }

    /// Frees its object, and puts another one there. After `NoMemory` it is as it was.
    pub fn put(&mut self, alloc: Global, object: Object) -> Result<(), NoMemory>
        ensures ok { OnOk result (self.new.slot.object ≡ Some object) }
        ensures err { OnErr result (self.new.slot.object ≡ self.old.slot.object) }
    {
        let full = Handle::of(Box::new(alloc, object)?);
        drop(std::mem::replace(self, full).into_box());
        Ok(())
    }

    /// Frees its object, and is empty then. An empty one stays so. Doesn't allocate.
    pub fn free(&mut self, alloc: Global)
        ensures { self.new.slot.object ≡ None }
    {
        drop(std::mem::replace(self, Handle::empty(alloc)).into_box());
    }
}

/// The same value, of a type that may go to another thread.
fn sent<T: Send>(value: T) -> T
    ensures { result ≡ value }
{
    value
}

/// A handle may go to another thread. Doesn't allocate.
pub fn handles_are_sent(handle: Handle) -> Handle
    ensures { result.slot.object ≡ handle.slot.object }
{
    sent(handle)
}
