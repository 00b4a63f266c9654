//! The parts of an edit.

ghost use Rattle.std.specs.Prelude.{◌≡◌, []};
ghost use Rattle.milter_c_objects.specs.EditParts.{edit_index, edit_number, first_text, or_nothing, second_text};

use milter_message::Edit;
use milter_wire::{Header, Text};

/// The parts of an edit: which one it is, and its texts.
#[derive(Clone, Copy, Debug, PartialEq, Eq)]
pub struct EditParts<'a> {
    /// The number of the edit, from 1 to 10 in the order of the variants of [`Edit`].
    pub number: u32,
    /// The index of a header field that is inserted or changed, else 0.
    pub index: u32,
    /// The name of a header field, an address, a chunk of a body, or a reason; none of progress.
    pub first: &'a [u8],
    /// The value of a header field, or the ESMTP parameters of an address; else none.
    pub second: &'a [u8],
}

/// The parts of an edit. Doesn't allocate.
pub fn parts_of(edit: &Edit) -> EditParts<'_>
    ensures number { result.number ≡ edit_number edit.now }
    ensures index { result.index ≡ edit_index edit.now }
    ensures first { result.first.now ≡ first_text edit.now }
    ensures second { result.second.now ≡ second_text edit.now }
{
    match edit {
        Edit::AddHeader(header) => header_parts(1, 0, header),
        Edit::InsertHeader { index, header } => header_parts(2, *index, header),
        Edit::ChangeHeader { index, header } => header_parts(3, *index, header),
        Edit::AddRcpt(address) => text_parts(4, address),
        Edit::AddRcptPar { address, arguments } => path_parts(5, address, arguments),
        Edit::DelRcpt(address) => text_parts(6, address),
        Edit::ChangeFrom { address, arguments } => path_parts(7, address, arguments),
        Edit::ReplaceBody(bytes) => text_parts(8, bytes),
        Edit::Quarantine(reason) => text_parts(9, reason),
        Edit::Progress => EditParts {
            number: 10,
            index: 0,
            first: &[],
            second: &[],
        },
    }
}

/// The parts of an edit of a header field.
fn header_parts(number: u32, index: u32, header: &Header) -> EditParts<'_>
    ensures number { result.number ≡ number }
    ensures index { result.index ≡ index }
    ensures first { result.first.now ≡ header.now.name }
    ensures second { result.second.now ≡ header.now.value }
{
    EditParts {
        number,
        index,
        first: header.name.as_slice(),
        second: header.value.as_slice(),
    }
}

/// The parts of an edit of one text.
fn text_parts(number: u32, text: &Text) -> EditParts<'_>
    ensures number { result.number ≡ number }
    ensures index { result.index ≡ 0 }
    ensures first { result.first.now ≡ text.now }
    ensures second { result.second.now ≡ [] }
{
    EditParts {
        number,
        index: 0,
        first: text.as_slice(),
        second: &[],
    }
}

/// The parts of an edit of an address with parameters.
fn path_parts<'a>(number: u32, address: &'a Text, params: &'a Option<Text>) -> EditParts<'a>
    ensures number { result.number ≡ number }
    ensures index { result.index ≡ 0 }
    ensures first { result.first.now ≡ address.now }
    ensures second { result.second.now ≡ or_nothing params.now }
{
    let second = match params {
        Some(text) => text.as_slice(),
        None => &[],
    };
    EditParts {
        number,
        index: 0,
        first: address.as_slice(),
        second,
    }
}
