//! What edits make of header fields that stand in an index.

ghost use Rattle.std.specs.Prelude.{◌≡◌, ◌≤◌, ◌++◌, IfOk, length};
ghost use Rattle.std.specs.List.{insert};
ghost use Rattle.milter_message.specs.EditedFields.{IsNumberedBy, changed, headers_of, numbered_fields, set_numbered, shown, with_number};
ghost use Rattle.milter_message.specs.EditedMessage.{added_field, change, edit_headers, headers_after};
ghost use Rattle.milter_message.specs.NameNumbers.{HasOwnNumber, IsNumbered, IsNumberFor, number_of};

use crate::edit::Edit;
use crate::edited_fields::EditedFields;
use crate::insertions::headers_after_insertions;
use crate::name_numbers::{
    NameNumbers, NumberedNames, changed_names, name_numbers, number_of, take_number,
};
use crate::source::Source;
use milter_wire::{Header, NoMemory};
use std::alloc::Global;

/// The header fields after the edits, one after the other. The time of an edit grows as the root of how many fields
/// there are. Each text that stays is copied once.
pub(crate) fn headers_after_by_index(
    alloc: Global,
    headers: &[Header],
    edits: &[Edit],
    leading_space: bool,
) -> Result<Vec<Header>, NoMemory>
    ensures { IfOk result (λ changed. changed.items ≡ headers_after leading_space headers.now edits.now) }
{
    let names = changed_names(alloc, edits)?;
    if names.is_empty() {
        return headers_after_insertions(alloc, headers, edits, leading_space);
    }
    let numbered = name_numbers(alloc, names.as_slice())?;
    let NumberedNames { numbers, of_names } = numbered;
    let mut fields = fields_of(alloc, headers, &numbers)?;
    let mut left = of_names.as_slice();
    for edit in edits {
        let (name, after) = take_number(edit, left);
        fields = edit_field(alloc, fields, edit, name, leading_space, &numbers)?;
        left = after;
    }
    fields.to_headers(alloc)
}

/// The header fields of a message.
fn fields_of<'a>(
    alloc: Global,
    headers: &'a [Header],
    numbers: &NameNumbers<'_>,
) -> Result<EditedFields<'a>, NoMemory>
    ensures { IfOk result (λ fields. fields ≡ numbered_fields numbers.now headers.now) }
{
    let mut fields = EditedFields::new(alloc)?;
    for header in headers {
        let position = fields.len();
        fields = insert_field(alloc, fields, position, Source::new(header, true), numbers)?;
    }
    Ok(fields)
}

/// Changes the fields as the edit asks. The name of the field that it changes has this number.
fn edit_field<'a>(
    alloc: Global,
    fields: EditedFields<'a>,
    edit: &'a Edit,
    name: u32,
    leading_space: bool,
    numbers: &NameNumbers<'_>,
) -> Result<EditedFields<'a>, NoMemory>
    requires fields { IsNumberedBy numbers.now fields }
    requires edit { IsNumbered numbers.now edit.now }
    requires name { IsNumberFor numbers.now name edit.now }
    ensures { IfOk result (λ after. after
        ≡ numbered_fields numbers.now (edit_headers leading_space (headers_of fields.entry) edit.now)) }
{
    match edit {
        Edit::AddHeader(header) => {
            let position = fields.len();
            insert_field(
                alloc,
                fields,
                position,
                Source::new(header, leading_space),
                numbers,
            )
        }
        Edit::InsertHeader { index, header } => {
            let position = fields.len().min(*index as usize);
            insert_field(
                alloc,
                fields,
                position,
                Source::new(header, leading_space),
                numbers,
            )
        }
        Edit::ChangeHeader { index, header } => {
            change_field(
                alloc,
                fields,
                *index,
                name,
                Source::new(header, leading_space),
                numbers,
            )
        }
        _ => Ok(fields),
    }
}

/// Inserts a field after so many others.
fn insert_field<'a>(
    alloc: Global,
    fields: EditedFields<'a>,
    position: usize,
    source: Source<'a>,
    numbers: &NameNumbers<'_>,
) -> Result<EditedFields<'a>, NoMemory>
    requires fields { IsNumberedBy numbers.now fields }
    requires within { position ≤ length fields }
    ensures { IfOk result (λ after. after
        ≡ numbered_fields numbers.now (insert (headers_of fields.entry) position (shown source.entry))) }
{
    let name = number_of(alloc, numbers, source.name)?;
    fields.insert(alloc, position, name, source)
}

/// Gives the occurrence of the name with this number another value, or deletes it; or adds it, where there are fewer.
fn change_field<'a>(
    alloc: Global,
    fields: EditedFields<'a>,
    index: u32,
    name: u32,
    source: Source<'a>,
    numbers: &NameNumbers<'_>,
) -> Result<EditedFields<'a>, NoMemory>
    requires fields { IsNumberedBy numbers.now fields }
    requires own { HasOwnNumber numbers.now source.name.now }
    requires name { name ≡ number_of numbers.now source.name.now }
    ensures { IfOk result (λ after. after
        ≡ numbered_fields numbers.now (change index (changed source.entry) (headers_of fields.entry))) }
{
    let mut fields = fields;
    match fields.nth(name, (index as usize).saturating_sub(1)) {
        Some(position) => {
            set_field(&mut fields, position, source);
            Ok(fields)
        }
        None => add_field(alloc, fields, name, source),
    }
}

/// Gives the field at a position another value, or deletes it where that is empty. It keeps its name.
fn set_field<'a>(fields: &mut EditedFields<'a>, position: usize, source: Source<'a>)
    ensures { fields.new ≡ set_numbered position (changed source.entry).value fields.old }
{
    if source.value.is_empty() {
        fields.remove(position);
    } else {
        fields.set_value(position, source);
    }
}

/// Adds a field as the last, unless its value is empty. Its name has this number.
fn add_field<'a>(
    alloc: Global,
    fields: EditedFields<'a>,
    name: u32,
    source: Source<'a>,
) -> Result<EditedFields<'a>, NoMemory>
    ensures { IfOk result (λ after. after ≡ fields.entry ++ with_number name (added_field (changed source.entry))) }
{
    if source.value.is_empty() {
        return Ok(fields);
    }
    let position = fields.len();
    fields.insert(alloc, position, name, source)
}
