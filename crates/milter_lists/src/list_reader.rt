//! How the entries of a file are read.

ghost use Rattle.std.specs.Prelude.{◌≡◌, IfErr, IfOk, OnOk, true};
ghost use Rattle.milter_lists.specs.Collected.{IsWithin, collected, joined, of_entry};
ghost use Rattle.milter_lists.specs.ListFaults.{IsFaultOf, IsSmallFile, has_good_entries};
ghost use Rattle.milter_lists.specs.Listed.{entries_in, is_entry};
ghost use Rattle.milter_lists.specs.ParsedEntries.{IsFaultAt};

use crate::entry::parse_entry;
use crate::file_entries::next_entry;
use crate::list_builder::ListBuilder;
use crate::list_fault::ListFault;
use crate::list_kind::ListKind;
use std::alloc::Global;

/// What is kept of the entries of a file.
pub(crate) fn read_entries(
    alloc: Global,
    kind: ListKind,
    bytes: &[u8],
) -> Result<ListBuilder, ListFault>
    ensures entries { IfOk result (λ builder. builder ≡ collected kind (entries_in bytes.now)) }
    ensures good { OnOk result (has_good_entries kind bytes.now ≡ true) }
    ensures small { OnOk result (IsSmallFile kind bytes.now) }
    ensures fault { IfErr result (IsFaultOf kind bytes.now) }
{
    let mut builder = ListBuilder::new(alloc);
    let mut rest = bytes;
    let mut before: u64 = 0;
    while let Some(next) = next_entry(rest, before) {
        push_entry(alloc, kind, next.entry, next.line, &mut builder)?;
        rest = next.rest;
        before = next.line;
    }
    Ok(builder)
}

/// Adds the entry that is on this line.
fn push_entry(
    alloc: Global,
    kind: ListKind,
    entry: &[u8],
    line: u64,
    builder: &mut ListBuilder,
) -> Result<(), ListFault>
    requires { IsWithin builder.old }
    ensures ok { OnOk result (builder.new ≡ joined builder.old (of_entry kind entry.now)) }
    ensures good { OnOk result (is_entry kind entry.now ≡ true) }
    ensures within { OnOk result (IsWithin builder.new) }
    ensures fault { IfErr result (IsFaultAt line kind builder.old entry.now) }
{
    match parse_entry(alloc, kind, entry)? {
        Some(parsed) => builder.push(&parsed, line),
        None => Err(ListFault::BadEntry(line)),
    }
}
