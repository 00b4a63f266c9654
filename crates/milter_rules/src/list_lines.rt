//! The lists of a rule file, read from the bytes of their files.

ghost use Rattle.std.specs.Prelude.{◌≡◌, ◌≤◌, ◌<◌, IfErr, IfOk, length};
ghost use Rattle.milter_text.specs.Lines.{lines_of};
ghost use Rattle.milter_filter_rules.specs.ListedValues.{sources_of};
ghost use Rattle.milter_rules.specs.ListFiles.{AreRead, CanBeRead};
ghost use Rattle.milter_rules.specs.declared.rule_fault.RuleFault.TheVariants as faults;
ghost use Rattle.milter_rules.specs.RuleFault.{IsWithin};

use crate::list_file::{ListFile, ListFileFault, read_list_files};
use crate::rule_fault::RuleFault;
use milter_filter_rules::{NamedList, NamedLists};
use milter_text::LineCursor;
use std::alloc::Global;

/// These lists of the rule file with these bytes, which has a line if it has a list, with the entries of their files.
pub(crate) fn read_lists(
    alloc: Global,
    bytes: &[u8],
    lists: &[NamedList],
    files: &[ListFile],
) -> Result<NamedLists, RuleFault>
    requires { 0 < length lists.now → 1 ≤ length (lines_of bytes.now) }
    ensures found { IfOk result (AreRead files.now (sources_of lists.now)) }
    ensures only { CanBeRead files.now (sources_of lists.now) → IfErr result (λ e. e ≡ faults.NoMemory) }
    ensures within { IfErr result (IsWithin (length (lines_of bytes.now))) }
{
    match read_list_files(alloc, lists, files) {
        Ok(named) => Ok(named),
        Err(ListFileFault::NoMemory) => Err(RuleFault::NoMemory),
        Err(ListFileFault::BadList(index)) => {
            let line = line_of_list(alloc, bytes, index)?;
            Err(RuleFault::BadList(line))
        }
    }
}

/// The number of the line of the list with this index, in a file that is not empty.
fn line_of_list(alloc: Global, bytes: &[u8], index: usize) -> Result<u64, RuleFault>
    requires { 1 ≤ length (lines_of bytes.now) }
    ensures found { IfOk result (λ line. (1 ≤ line) × (line ≤ length (lines_of bytes.now))) }
    ensures within { IfErr result (IsWithin (length (lines_of bytes.now))) }
{
    let mut lines = LineCursor::new(bytes);
    let mut number = 1;
    lines.next(alloc)?;
    for _ in 0..=index {
        if let Some(line) = lines.next(alloc)? {
            number = line.number;
        }
    }
    Ok(number)
}
