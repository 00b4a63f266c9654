//! Bytes that a caller in C borrows.

ghost use Rattle.std.specs.Prelude.{◌≡◌, option_map};
ghost use Rattle.milter_c.specs.Views.{IsBorrowed};

use milter_c_objects::status::{NOTHING, OK};

/// Borrows the object of this kind that a handle has. The function answers `WRONG_KIND` where there is none.
macro_rules! let_object {
    ($object:ident: $kind:ident = $handle:expr) => {
        if !$handle.full {
            return WRONG_KIND;
        }
        let Object::$kind($object) = $handle.slot.as_mut() else {
            return WRONG_KIND;
        };
    };
}

pub(crate) use let_object;

/// Bytes that are borrowed: in C a pointer and a length.
#[repr(C)]
#[derive(Clone, Copy)]
pub struct View<'a> {
    /// The bytes.
    pub bytes: &'a [u8],
}

/// A packet that is borrowed: in C a pointer and a length, and the code.
#[repr(C)]
#[derive(Clone, Copy)]
pub struct PacketView<'a> {
    /// What follows the code.
    pub payload: &'a [u8],
    /// The code.
    pub code: u8,
}

/// An edit that is borrowed: in C a pointer and a length for each of its texts, and its numbers.
#[repr(C)]
#[derive(Clone, Copy)]
pub struct EditView<'a> {
    /// The name of a header field, an address, a chunk of a body, or a reason.
    pub first: &'a [u8],
    /// The value of a header field, or the ESMTP parameters of an address.
    pub second: &'a [u8],
    /// Which edit it is.
    pub kind: u32,
    /// The index of a header field, else 0.
    pub index: u32,
}

/// A part of a command or a reply that is borrowed: in C a pointer and a length for each of its texts, and its numbers.
#[repr(C)]
#[derive(Clone, Copy)]
pub struct PartView<'a> {
    /// The first text.
    pub first: &'a [u8],
    /// The second text.
    pub second: &'a [u8],
    /// The family of an address, or whether there are ESMTP parameters.
    pub kind: u32,
    /// The number.
    pub number: u32,
}

/// What an accessor answers of a text, which the caller borrows where there is one. Doesn't allocate.
pub fn borrow<'a>(text: Option<&'a [u8]>, out: &mut View<'a>) -> i32
    ensures { IsBorrowed (option_map (λ bytes. bytes.now) text.entry) result out.old out.new }
{
    match text {
        Some(bytes) => {
            out.bytes = bytes;
            OK
        }
        None => NOTHING,
    }
}
