//! The payloads of replies, by their layouts.

ghost use Rattle.std.specs.Prelude.{◌≡◌, ◌-◌, ◌^◌, ◌↔◌, IsTrue, length, min};
ghost use Rattle.milter_fields.specs.AppendedBytes.{PutsBytes};
ghost use Rattle.milter_wire.specs.Payload.{PayloadFits, payload_bytes};

use crate::options::Options;
use crate::symbol_lists::{
    SymLists, options_with_lists_fit, options_with_lists_len, put_options_with_lists,
};
use milter_fields::{
    Header, NoMemory, Text, arguments_fit, arguments_len, has_no_nul, header_fits, header_len,
    is_reply_code, put_addressed, put_bytes, put_header, put_indexed, put_string, string_len,
};

/// The bytes of the index of a header field.
const INDEX_LEN: usize = 4;

/// The payload of a reply by its layout, borrowed from what is sent: a [`crate::Reply`], an edit, or a verdict. Source:
/// the layouts that libmilter writes.
#[derive(Clone, Copy, Debug, Drop)]
pub enum PayloadRef<'a> {
    /// No bytes.
    Empty,
    /// Bytes of any kind.
    Bytes(&'a Text),
    /// A string, which has no NUL but that at its end.
    String(&'a Text),
    /// A string that begins with `4` or `5` and two digits.
    Code(&'a Text),
    /// An address, and its ESMTP parameters where there are some.
    Addressed(&'a Text, &'a Option<Text>),
    /// A header field.
    Header(&'a Header),
    /// A header field with an index.
    Indexed(u32, &'a Header),
    /// Options and symbol lists.
    Options(&'a Options, &'a SymLists),
}

impl<'a> PayloadRef<'a> {
    /// Whether no string in it has a NUL, and a reply code has its form. Doesn't allocate.
    pub fn fits(&self) -> bool
        ensures { IsTrue result ↔ PayloadFits self.now }
    {
        match self {
            PayloadRef::Empty | PayloadRef::Bytes(_) => true,
            PayloadRef::String(text) => has_no_nul(text.as_slice()),
            PayloadRef::Code(text) => has_no_nul(text.as_slice()) && is_reply_code(text.as_slice()),
            PayloadRef::Addressed(address, arguments) => {
                has_no_nul(address.as_slice()) && arguments_fit(arguments)
            }
            PayloadRef::Header(header) => header_fits(header),
            PayloadRef::Indexed(index, header) => {
                let _index = *index;
                header_fits(header)
            }
            PayloadRef::Options(options, lists) => options_with_lists_fit(options, lists),
        }
    }

    /// The number of its bytes, or the greatest `usize`. Doesn't allocate.
    #[tactic(auto, unfolding(milter_fields::specs::Number::number))]
    pub fn len(&self) -> usize
        ensures { result ≡ min (length (payload_bytes self.now)) (2 ^ 64 - 1) }
    {
        match self {
            PayloadRef::Empty => 0,
            PayloadRef::Bytes(bytes) => bytes.as_slice().len(),
            PayloadRef::String(text) | PayloadRef::Code(text) => string_len(text.as_slice()),
            PayloadRef::Addressed(address, arguments) => {
                string_len(address.as_slice()).saturating_add(arguments_len(arguments))
            }
            PayloadRef::Header(header) => header_len(header),
            PayloadRef::Indexed(_, header) => header_len(header).saturating_add(INDEX_LEN),
            PayloadRef::Options(options, lists) => options_with_lists_len(options, lists),
        }
    }

    /// Appends its bytes.
    pub(crate) fn put(&self, out: &mut Vec<u8>) -> Result<(), NoMemory>
        ensures { PutsBytes (payload_bytes self.now) out.old.items out.new.items result }
    {
        match self {
            PayloadRef::Empty => Ok(()),
            PayloadRef::Bytes(bytes) => put_bytes(out, bytes.as_slice()),
            PayloadRef::String(text) | PayloadRef::Code(text) => put_string(out, text.as_slice()),
            PayloadRef::Addressed(address, arguments) => put_addressed(out, address, arguments),
            PayloadRef::Header(header) => put_header(out, header),
            PayloadRef::Indexed(index, header) => put_indexed(out, *index, header),
            PayloadRef::Options(options, lists) => put_options_with_lists(out, options, lists),
        }
    }
}
