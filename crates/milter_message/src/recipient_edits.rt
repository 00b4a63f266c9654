//! What edits make of the sender and the recipients of a message.

ghost use Rattle.std.specs.Prelude.{◌≡◌, ◌++◌, IfOk, OnOk, None, option_map};
ghost use Rattle.std.specs.List.{filter_map, last_or};
ghost use Rattle.milter_message.specs.EditedMessage.{new_sender, or_as_it_was, params_of, recipients_after};
ghost use Rattle.milter_message.specs.Deletions.{HasLastDeletions, kept_added, kept_by};

use crate::copies::copy_path;
use crate::deletions::{LastDeletions, is_deleted_from, last_deletions};
use crate::edit::Edit;
use milter_wire::{NoMemory, Params, Path, Text};
use std::alloc::Global;

/// The recipients after the edits, one after the other: those that no later edit deletes. Each of their texts is copied
/// once, and each deletion is looked up among the others in the logarithm of their number.
pub(crate) fn recipients_after(
    alloc: Global,
    recipients: &[Path],
    edits: &[Edit],
) -> Result<Vec<Path>, NoMemory>
    ensures { IfOk result (λ changed. changed.items ≡ recipients_after recipients.now edits.now) }
{
    let deletions = last_deletions(alloc, edits)?;
    let mut changed = kept_recipients(alloc, recipients, &deletions)?;
    add_recipients(alloc, edits, &deletions, &mut changed)?;
    Ok(changed)
}

/// Copies of the recipients that aren't deleted.
fn kept_recipients(
    alloc: Global,
    recipients: &[Path],
    deletions: &LastDeletions<'_>,
) -> Result<Vec<Path>, NoMemory>
    ensures { IfOk result (λ kept. kept.items ≡ kept_by deletions.now recipients.now) }
{
    let mut kept = Vec::with_capacity(alloc, recipients.len())?;
    for recipient in recipients {
        if !is_deleted_from(deletions, 0, &recipient.address) {
            kept.push(copy_path(alloc, recipient)?)?;
        }
    }
    Ok(kept)
}

/// Adds the recipients that the edits add and no later one deletes.
fn add_recipients(
    alloc: Global,
    edits: &[Edit],
    deletions: &LastDeletions<'_>,
    recipients: &mut Vec<Path>,
) -> Result<(), NoMemory>
    requires { HasLastDeletions edits.now deletions.now }
    ensures { OnOk result (recipients.new.items ≡ recipients.old.items ++ kept_added edits.now) }
{
    let mut next: usize = 0;
    for edit in edits {
        next += 1;
        match edit {
            Edit::AddRcpt(address) if !is_deleted_from(deletions, next, address) => {
                recipients.push(path_of(alloc, address, &None)?)?;
            }
            Edit::AddRcptPar { address, arguments } if !is_deleted_from(deletions, next, address) =>
                {
                    recipients.push(path_of(alloc, address, arguments)?)?;
                }
            _ => {}
        }
    }
    Ok(())
}

/// The path of an address, with the argument text as its one parameter.
fn path_of(alloc: Global, address: &Text, arguments: &Option<Text>) -> Result<Path, NoMemory>
    ensures { IfOk result (λ path. path ≡ record { address = address.now; params = params_of arguments.now }) }
{
    let mut params = Vec::new(alloc);
    if let Some(text) = arguments {
        params.push(Text::copy_of(alloc, text.as_slice())?)?;
    }
    let params = Params::new(params);
    let address = Text::copy_of(alloc, address.as_slice())?;
    Ok(Path { address, params })
}

/// The sender after the edits: the last that they ask for, or the old one.
pub(crate) fn sender_after(alloc: Global, sender: &Path, edits: &[Edit]) -> Result<Path, NoMemory>
    ensures { IfOk result (λ path. path ≡ or_as_it_was sender.now (last_or None (filter_map new_sender edits.now))) }
{
    match last_sender(edits) {
        Some((address, arguments)) => path_of(alloc, address, arguments),
        None => copy_path(alloc, sender),
    }
}

/// The address and the arguments of the last sender that the edits ask for.
fn last_sender(edits: &[Edit]) -> Option<(&Text, &Option<Text>)>
    ensures { option_map (λ found. record { address = found.0.now; params = params_of found.1.now }) result ≡
        last_or None (filter_map new_sender edits.now) }
{
    let mut last = None;
    for edit in edits {
        if let Edit::ChangeFrom { address, arguments } = edit {
            last = Some((address, arguments));
        }
    }
    last
}
