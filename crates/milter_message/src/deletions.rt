//! Which addresses of recipients edits delete, and where.

ghost use Rattle.std.specs.Prelude.{◌≡◌, IfOk};
ghost use Rattle.milter_message.specs.Deletions.{HasLastDeletions, is_deleted_from};

use crate::edit::Edit;
use milter_wire::{NoMemory, Text};
use std::alloc::Global;
use std::collections::BTreeMap;

/// Addresses that edits delete, each with the index of the last edit that does.
pub(crate) type LastDeletions<'a> = BTreeMap<&'a [u8], usize>;

/// The addresses that these edits delete.
pub(crate) fn last_deletions(alloc: Global, edits: &[Edit]) -> Result<LastDeletions<'_>, NoMemory>
    ensures { IfOk result (HasLastDeletions edits.now) }
{
    let mut last = BTreeMap::new(alloc);
    let mut index: usize = 0;
    for edit in edits {
        if let Edit::DelRcpt(address) = edit {
            last.insert(address.as_slice(), index)?;
        }
        index += 1;
    }
    Ok(last)
}

/// Whether the edit with this index or a later one deletes the address. Doesn't allocate.
pub(crate) fn is_deleted_from(last: &LastDeletions<'_>, index: usize, address: &Text) -> bool
    ensures { result ≡ is_deleted_from index last.now address.now }
{
    match last.get(address.as_slice()) {
        Some(found) => index <= *found,
        None => false,
    }
}
