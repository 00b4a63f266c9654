//! The version of the library.

ghost use Rattle.std.specs.Prelude.{◌≡◌, None};

use milter_c_objects::Handle;
use std::alloc::Global;

/// 65,536 times the major number, 256 times the minor number, and the patch.
pub const VERSION: u32 = 0x0000_0100;

/// The version of the library that is linked. Doesn't allocate.
#[unsafe(no_mangle)]
pub extern "C" fn deiruska_version() -> u32
    ensures { result ≡ VERSION }
{
    VERSION
}

/// Frees the object of a handle of any kind, which is empty then. An empty one stays so. Doesn't allocate.
#[unsafe(no_mangle)]
pub extern "C" fn deiruska_free(alloc: Global, handle: &mut Handle)
    ensures { handle.new.slot.object ≡ None }
{
    handle.free(alloc);
}
