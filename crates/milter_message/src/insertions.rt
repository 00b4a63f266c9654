//! What edits make of header fields of which they change none.

ghost use Rattle.std.specs.Prelude.{◌≡◌, ◌≤◌, None, [], IfOk, length};
ghost use Rattle.std.specs.List.{filter_map, insert};
ghost use Rattle.milter_message.specs.EditedFields.{shown};
ghost use Rattle.milter_message.specs.EditedMessage.{edit_headers, headers_after};
ghost use Rattle.milter_message.specs.NameNumbers.{changed_name};

use crate::edit::Edit;
use crate::ordered_fields::OrderedFields;
use crate::source::Source;
use milter_wire::{Header, NoMemory};
use std::alloc::Global;

/// The header fields after edits that change and delete none. The time of an edit grows as the root of how many fields
/// there are. Each text is copied once.
pub(crate) fn headers_after_insertions(
    alloc: Global,
    headers: &[Header],
    edits: &[Edit],
    leading_space: bool,
) -> Result<Vec<Header>, NoMemory>
    requires { filter_map changed_name edits.now ≡ [] }
    ensures { IfOk result (λ after. after.items ≡ headers_after leading_space headers.now edits.now) }
{
    let mut fields = fields_of(alloc, headers)?;
    for edit in edits {
        fields = edit_field(alloc, fields, edit, leading_space)?;
    }
    fields.to_headers(alloc)
}

/// The header fields of a message.
fn fields_of(alloc: Global, headers: &[Header]) -> Result<OrderedFields<'_>, NoMemory>
    ensures { IfOk result (λ fields. fields ≡ headers.now) }
{
    let mut fields = OrderedFields::new(alloc)?;
    for header in headers {
        let position = fields.len();
        fields = fields.insert(alloc, position, Source::new(header, true))?;
    }
    Ok(fields)
}

/// Adds or inserts a field as the edit asks.
fn edit_field<'a>(
    alloc: Global,
    fields: OrderedFields<'a>,
    edit: &'a Edit,
    leading_space: bool,
) -> Result<OrderedFields<'a>, NoMemory>
    requires { changed_name edit.now ≡ None }
    ensures { IfOk result (λ after. after ≡ edit_headers leading_space fields.entry edit.now) }
{
    match edit {
        Edit::AddHeader(header) => {
            let position = fields.len();
            fields.insert(alloc, position, Source::new(header, leading_space))
        }
        Edit::InsertHeader { index, header } => {
            let position = fields.len().min(*index as usize);
            fields.insert(alloc, position, Source::new(header, leading_space))
        }
        _ => Ok(fields),
    }
}
