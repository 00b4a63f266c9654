//! Senders and recipients, and their encoding: the address and the parameters, a string each.

ghost use Rattle.std.specs.Prelude.{◌≡◌, ◌-◌, ◌^◌, ◌↔◌, IfOk, IsTrue, length, min, option_map};
ghost use Rattle.milter_fields.specs.AppendedBytes.{PutsBytes};
ghost use Rattle.milter_fields.specs.Layout.{path, PathFits};
ghost use Rattle.milter_fields.specs.Decoders.{path_in};
ghost use Rattle.milter_fields.specs.Borrowed.{path_of};

use crate::borrowed_lists::ParamsRef;
use crate::fault::NoMemory;
use crate::lists::Params;
use crate::strings::{has_no_nul, put_string, string_len, take_string};
use crate::text::Text;
use std::alloc::Global;

/// The sender or a recipient of a message, with its ESMTP parameters. Source: the libmilter callback documentation
/// (xxfi_envfrom, xxfi_envrcpt).
#[derive(Clone, Debug, PartialEq, Eq, Drop)]
pub struct Path {
    /// The address as the client gave it, with or without angle brackets.
    pub address: Text,
    /// The parameters that followed it.
    pub params: Params,
}

/// A sender or a recipient that is borrowed, from a packet or from a [`Path`]. Source: the libmilter callback
/// documentation (xxfi_envfrom, xxfi_envrcpt).
#[derive(Debug, Drop)]
pub struct PathRef<'a> {
    /// The address as the client gave it, with or without angle brackets.
    pub address: &'a [u8],
    /// The parameters that followed it.
    pub params: ParamsRef<'a>,
}

impl Path {
    /// The same sender or recipient, borrowed. Doesn't allocate.
    pub fn as_ref(&self) -> PathRef<'_>
        ensures { path_of result ≡ self.now }
    {
        PathRef {
            address: self.address.as_slice(),
            params: ParamsRef::new(self.params.as_slice()),
        }
    }
}

impl<'a> PathRef<'a> {
    /// The path that these bytes encode, all of the bytes.
    #[tactic(auto, unfolding(crate::specs::Decoders::path_in))]
    pub fn of_payload(bytes: &'a [u8]) -> Option<PathRef<'a>>
        ensures { option_map path_of result ≡ path_in bytes.now }
    {
        let (address, rest) = take_string(bytes)?;
        let params = ParamsRef::of_payload(rest)?;
        Some(PathRef { address, params })
    }

    /// A copy of the sender or recipient.
    pub fn to_path(&self, alloc: Global) -> Result<Path, NoMemory>
        ensures { IfOk result (λ copy. copy ≡ path_of self.now) }
    {
        let address = Text::copy_of(alloc, self.address)?;
        let params = self.params.to_params(alloc)?;
        Ok(Path { address, params })
    }

    /// Whether no string has a NUL.
    pub fn fits(&self) -> bool
        ensures { IsTrue result ↔ PathFits (path_of self.now) }
    {
        has_no_nul(self.address) && self.params.fit()
    }

    /// The number of bytes of the strings, or the greatest `usize`.
    pub fn payload_len(&self) -> usize
        ensures { result ≡ min (length (path (path_of self.now))) (2 ^ 64 - 1) }
    {
        string_len(self.address).saturating_add(self.params.payload_len())
    }

    /// Appends the strings.
    pub fn put(&self, out: &mut Vec<u8>) -> Result<(), NoMemory>
        ensures { PutsBytes (path (path_of self.now)) out.old.items out.new.items result }
    {
        put_string(out, self.address)?;
        self.params.put(out)
    }
}
