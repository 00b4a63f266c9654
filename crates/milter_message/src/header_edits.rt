//! What edits make of the header fields of a message.

ghost use Rattle.std.specs.Prelude.{◌≡◌, ◌<◌, ◌+◌, ◌++◌, IfOk, OnOk, drop, length, take};
ghost use Rattle.std.specs.Str.{str_eq_ignore_ascii_case};
ghost use Rattle.milter_message.specs.LeadingSpace.{change_header, changed_value};
ghost use Rattle.milter_message.specs.EditedMessage.{added_field, change, occurrence, set_field, edit_headers, headers_after, insert_at, positions_from};

use crate::copies::copy_headers;
use crate::edit::Edit;
use crate::indexed_edits::headers_after_by_index;
use crate::leading_space::{put_copy, put_value};
use milter_wire::{Header, NoMemory, Text};
use std::alloc::Global;

/// The most header fields that edits may go over in a plain list.
const STEPS_MAX: usize = 65_536;

/// The header fields after the edits, one after the other. They stay in a plain list where few fields are gone over,
/// and get an index where these are more.
pub(crate) fn headers_after(
    alloc: Global,
    headers: &[Header],
    edits: &[Edit],
    leading_space: bool,
) -> Result<Vec<Header>, NoMemory>
    ensures { IfOk result (λ changed. changed.items ≡ headers_after leading_space headers.now edits.now) }
{
    let fields = headers.len().saturating_add(edits.len());
    if fields.saturating_mul(steps_of(edits)) > STEPS_MAX {
        return headers_after_by_index(alloc, headers, edits, leading_space);
    }
    headers_after_in_list(alloc, headers, edits, leading_space)
}

/// How many of the edits go over the fields in a plain list.
fn steps_of(edits: &[Edit]) -> usize {
    edits.iter().filter(|edit| goes_over_fields(edit)).count()
}

/// Whether the edit goes over the fields in a plain list: one that inserts, changes or deletes a field does.
fn goes_over_fields(edit: &Edit) -> bool {
    matches!(edit, Edit::InsertHeader { .. } | Edit::ChangeHeader { .. })
}

/// The header fields after the edits, each of which goes over the fields once. Each text is copied once.
fn headers_after_in_list(
    alloc: Global,
    headers: &[Header],
    edits: &[Edit],
    leading_space: bool,
) -> Result<Vec<Header>, NoMemory>
    ensures { IfOk result (λ changed. changed.items ≡ headers_after leading_space headers.now edits.now) }
{
    let mut changed = copy_headers(alloc, headers)?;
    for edit in edits {
        edit_headers(alloc, &mut changed, edit, leading_space)?;
    }
    Ok(changed)
}

/// Changes the header fields as the edit asks.
fn edit_headers(
    alloc: Global,
    headers: &mut Vec<Header>,
    edit: &Edit,
    leading_space: bool,
) -> Result<(), NoMemory>
    ensures { OnOk result (headers.new.items ≡ edit_headers leading_space headers.old.items edit.now) }
{
    match edit {
        Edit::AddHeader(header) => {
            headers.push(put_copy(alloc, header, leading_space)?)?;
            Ok(())
        }
        Edit::InsertHeader { index, header } => {
            insert_header(headers, *index, put_copy(alloc, header, leading_space)?)
        }
        Edit::ChangeHeader { index, header } => {
            change_header(alloc, headers, *index, header, leading_space)
        }
        _ => Ok(()),
    }
}

/// Inserts the header field after so many of the others, or after them all where there are fewer.
fn insert_header(headers: &mut Vec<Header>, index: u32, header: Header) -> Result<(), NoMemory>
    ensures { OnOk result (headers.new.items ≡ insert_at index header headers.old.items) }
{
    let position = headers.len().min(index as usize);
    headers.insert(position, header)?;
    Ok(())
}

/// Gives the occurrence of this name another value, or deletes it; or adds it, where there are fewer.
fn change_header(
    alloc: Global,
    headers: &mut Vec<Header>,
    index: u32,
    header: &Header,
    leading_space: bool,
) -> Result<(), NoMemory>
    ensures { OnOk result (headers.new.items
        ≡ change index (change_header leading_space header.now) headers.old.items) }
{
    match position_of(headers.as_slice(), &header.name, index) {
        Some(position) => change_field(alloc, headers, position, &header.value, leading_space),
        None => add_field(alloc, headers, header, leading_space),
    }
}

/// The index of the occurrence of the name with this number, counted from 1, without regard to ASCII case; 0 is taken
/// as 1.
fn position_of(headers: &[Header], name: &Text, index: u32) -> Option<usize>
    ensures { result ≡ occurrence index (positions_from 0 name.now headers.now) }
{
    let mut left = index;
    for position in 0..headers.len() {
        if has_name(&headers[position], name) {
            if left <= 1 {
                return Some(position);
            }
            left -= 1;
        }
    }
    None
}

/// Whether the header field has this name, without regard to ASCII case. Most names are written the same way, and equal
/// bytes are found sooner.
#[tactic(auto, using(crate::proofs::EditFolds::same_name))]
fn has_name(header: &Header, name: &Text) -> bool
    ensures { result ≡ str_eq_ignore_ascii_case header.now.name name.now }
{
    let own = header.name.as_slice();
    let other = name.as_slice();
    if own == other {
        return true;
    }
    own.eq_ignore_ascii_case(other)
}

/// Gives the field at an index another value, or deletes it where that is empty.
fn change_field(
    alloc: Global,
    headers: &mut Vec<Header>,
    position: usize,
    value: &Text,
    leading_space: bool,
) -> Result<(), NoMemory>
    requires { position < length headers.old.items }
    ensures { OnOk result (headers.new.items
        ≡ set_field position (changed_value leading_space value.now) headers.old.items) }
{
    if value.as_slice().is_empty() {
        drop(headers.remove(position));
        return Ok(());
    }
    headers[position].value = put_value(alloc, value.as_slice(), leading_space)?;
    Ok(())
}

/// Adds the field as the last, unless its value is empty.
fn add_field(
    alloc: Global,
    headers: &mut Vec<Header>,
    header: &Header,
    leading_space: bool,
) -> Result<(), NoMemory>
    ensures { OnOk result (headers.new.items
        ≡ headers.old.items ++ added_field (change_header leading_space header.now)) }
{
    if !header.value.as_slice().is_empty() {
        headers.push(put_copy(alloc, header, leading_space)?)?;
    }
    Ok(())
}
