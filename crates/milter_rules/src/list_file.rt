//! Lists from the bytes of their files.

ghost use Rattle.std.specs.Prelude.{◌≡◌, IfErr, IfOk, option_map};
ghost use Rattle.milter_filter_rules.specs.ListedValues.{sources_of};
ghost use Rattle.milter_rules.specs.ListFiles.{AreRead, CanBeList, CanBeRead, IsAtIndex, IsOfList, IsRead, bytes_named};
ghost use Rattle.milter_rules.specs.declared.list_file.ListFileFault.TheVariants as faults;

use milter_filter_rules::{ListFault, ListSource, NamedList, NamedLists, SharedList, TextList};
use milter_wire::{NoMemory, RefusedMemory, Text};
use std::alloc::Global;
use thiserror::Error;

/// The file of a list.
#[derive(Clone, Debug, PartialEq, Eq, Drop)]
pub struct ListFile {
    /// The name by which conditions refer to the list.
    pub name: Text,
    /// All bytes of its file.
    pub bytes: Text,
}

/// Why there are no lists.
#[derive(Clone, Copy, Debug, PartialEq, Eq, Error)]
pub enum ListFileFault {
    /// The list with this index, from 0, has no file, or a line of its file is no entry, or it is too large.
    #[error("list {0}: bad list")]
    BadList(usize),
    /// The memory that was asked for was refused.
    #[error("out of memory")]
    NoMemory,
}

impl<E: RefusedMemory> From<E> for ListFileFault {
    ghost from_gives = { λ _ e. e ≡ faults.NoMemory };

    fn from(_error: E) -> ListFileFault {
        ListFileFault::NoMemory
    }
}

/// Lists of the same sources as these, in their order, each with the entries of the first of the files that has its
/// name.
pub fn read_list_files(
    alloc: Global,
    lists: &[NamedList],
    files: &[ListFile],
) -> Result<NamedLists, ListFileFault>
    ensures found { IfOk result (AreRead files.now (sources_of lists.now)) }
    ensures only { CanBeRead files.now (sources_of lists.now) → IfErr result (λ e. e ≡ faults.NoMemory) }
    ensures bad { IfErr result (IsOfList lists.now) }
{
    let mut read = Vec::new(alloc);
    for (index, list) in lists.iter().enumerate() {
        read.push(read_list(alloc, index, &list.source, files)?)?;
    }
    Ok(NamedLists::new(read))
}

/// The list of this source, which is that with this index.
fn read_list(
    alloc: Global,
    index: usize,
    source: &ListSource,
    files: &[ListFile],
) -> Result<NamedList, ListFileFault>
    ensures found { IfOk result (IsRead files.now source.now) }
    ensures only { CanBeList files.now source.now → IfErr result (λ e. e ≡ faults.NoMemory) }
    ensures bad { IfErr result (IsAtIndex index) }
{
    let Some(bytes) = bytes_named(files, source.name.as_slice()) else {
        return Err(ListFileFault::BadList(index));
    };
    let list = match TextList::read(alloc, source.kind, bytes) {
        Ok(list) => list,
        Err(ListFault::NoMemory) => return Err(ListFileFault::NoMemory),
        Err(_) => return Err(ListFileFault::BadList(index)),
    };
    let source = copy_of(alloc, source)?;
    let list = SharedList::new(alloc, list)?;
    Ok(NamedList { source, list })
}

/// The bytes of the first file of this name.
fn bytes_named<'a>(files: &'a [ListFile], name: &[u8]) -> Option<&'a [u8]>
    ensures { option_map (λ bytes. bytes.now) result ≡ bytes_named files.now name.now }
{
    for file in files {
        if file.name.as_slice() == name {
            return Some(file.bytes.as_slice());
        }
    }
    None
}

/// Lists of these sources, in their order, without entries.
pub fn lists_without_entries(alloc: Global, sources: &[ListSource]) -> Result<NamedLists, NoMemory>
    ensures { IfOk result (λ lists. sources_of lists ≡ sources.now) }
{
    let mut lists = Vec::new(alloc);
    for source in sources {
        lists.push(NamedList {
            source: copy_of(alloc, source)?,
            list: SharedList::new(alloc, TextList::empty(alloc, source.kind))?,
        })?;
    }
    Ok(NamedLists::new(lists))
}

/// A copy of the source.
fn copy_of(alloc: Global, source: &ListSource) -> Result<ListSource, NoMemory>
    ensures { IfOk result (λ copy. copy ≡ source.now) }
{
    Ok(ListSource {
        name: Text::copy_of(alloc, source.name.as_slice())?,
        kind: source.kind,
        file: Text::copy_of(alloc, source.file.as_slice())?,
    })
}
