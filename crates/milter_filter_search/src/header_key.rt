//! What is looked for in header fields.

ghost use Rattle.std.specs.Prelude.{◌≡◌, ◌&&◌, IfOk, IsTrue};
ghost use Rattle.milter_fields.specs.declared.header.Header.{Header};
ghost use Rattle.milter_filter_search.specs.Needles.{header_found, matches};
ghost use Rattle.milter_filter_search.specs.Texts.{is_named};

use crate::needle::{KeptNeedle, Needle};
use crate::search::Lookup;
use milter_fields::{Header, NoMemory, Text};
use std::alloc::Global;

/// A needle that is looked for in header fields of a name.
#[derive(Debug, Drop)]
pub(crate) struct HeaderKey {
    name: Text,
    needle: KeptNeedle,
}

impl HeaderKey {
    /// A key with copies of both.
    pub(crate) fn new(alloc: Global, name: &[u8], needle: &Needle<'_>) -> Result<Self, NoMemory> {
        Ok(HeaderKey {
            name: Text::copy_of(alloc, name)?,
            needle: KeptNeedle::of(alloc, needle)?,
        })
    }

    /// Whether it probably has copies of both. It takes little time, also where the needle is a large list.
    pub(crate) fn resembles(&self, name: &[u8], needle: &Needle<'_>) -> bool {
        self.needle.resembles(needle) && self.name.as_slice() == name
    }

    /// Whether it has copies of both.
    pub(crate) fn is_for(&self, name: &[u8], needle: &Needle<'_>) -> bool
        ensures { IsTrue result → (header : Header) → header_found self.now header
            ≡ (is_named name.now header && matches needle.now header.value) }
    {
        self.name.as_slice() == name && self.needle.is_for(needle)
    }
}

impl Lookup<Header> for HeaderKey {
    ghost finds = { header_found };

    fn finds(&self, alloc: Global, header: &Header) -> Result<bool, NoMemory> {
        finds_in_header(
            alloc,
            self.name.as_slice(),
            &self.needle.as_needle(),
            header,
        )
    }
}

/// Whether the header field has the name, in which ASCII case doesn't count, and the needle is found in its value.
pub(crate) fn finds_in_header(
    alloc: Global,
    name: &[u8],
    needle: &Needle<'_>,
    header: &Header,
) -> Result<bool, NoMemory>
    ensures { IfOk result (λ found. found ≡ (is_named name.now header.now && matches needle.now header.now.value)) }
{
    if !header.name.as_slice().eq_ignore_ascii_case(name) {
        return Ok(false);
    }
    needle.matches(alloc, header.value.as_slice())
}
