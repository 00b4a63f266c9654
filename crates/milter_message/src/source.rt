//! Header fields whose texts are borrowed.

ghost use Rattle.std.specs.Prelude.{◌≡◌, ◌<◌, IfOk, length, map};
ghost use Rattle.std.specs.List.{All};
ghost use Rattle.milter_message.specs.EditedFields.{changed, header_at, shown};
ghost use Rattle.milter_message.specs.LeadingSpace.{change_header, put_header};

use crate::leading_space::put_value;
use milter_wire::{Header, NoMemory, Text};
use std::alloc::Global;

/// A header field whose texts stand in the message or in an edit. The bytes are borrowed, not the texts: a copy then
/// follows one pointer less for each, which counts where the fields are far apart in memory.
#[derive(Clone, Copy, Debug)]
pub(crate) struct Source<'a> {
    /// The name.
    pub(crate) name: &'a [u8],
    /// The value.
    pub(crate) value: &'a [u8],
    /// Whether the value stays as it is; else it gets a blank.
    pub(crate) leading_space: bool,
}

impl<'a> Source<'a> {
    /// The texts of a header field that an edit puts.
    pub(crate) fn new(header: &'a Header, leading_space: bool) -> Self
        ensures put { shown result ≡ put_header leading_space header.now }
        ensures changed { changed result ≡ change_header leading_space header.now }
    {
        Source {
            name: header.name.as_slice(),
            value: header.value.as_slice(),
            leading_space,
        }
    }
}

/// Copies of the fields with these ids, in order. Each text is copied once.
pub(crate) fn copies_of(
    alloc: Global,
    sources: &[Source<'_>],
    ids: &[u32],
) -> Result<Vec<Header>, NoMemory>
    requires { All (λ id. id < length sources.now) ids.now }
    ensures { IfOk result (λ headers. headers.items ≡ map (header_at (map shown sources.now)) ids.now) }
{
    let mut headers = Vec::with_capacity(alloc, ids.len())?;
    for id in ids {
        headers.push(copy_of(alloc, sources[*id as usize])?)?;
    }
    Ok(headers)
}

/// A copy of the field.
fn copy_of(alloc: Global, source: Source<'_>) -> Result<Header, NoMemory>
    ensures { IfOk result (λ copy. copy ≡ shown source.entry) }
{
    let name = Text::copy_of(alloc, source.name)?;
    let value = put_value(alloc, source.value, source.leading_space)?;
    Ok(Header { name, value })
}
