//! What the first lines of a rule file give: its form, and its lists.

use milter_rules::{FileForm, ListSource, ListSources, RuleFault, list_sources};
use milter_wire::NoMemory;
use std::alloc::Global;

/// What the first lines of a file give.
#[derive(Clone, Copy)]
pub(crate) struct FileHead<'a> {
    /// The form of the file.
    pub(crate) form: FileForm,
    /// Its lists, to which conditions may refer; none where a line of them is at fault.
    pub(crate) lists: Option<&'a [ListSource]>,
}

impl<'a> FileHead<'a> {
    /// The list of this name.
    pub(crate) fn list_named(self, name: &[u8]) -> Option<&'a ListSource> {
        self.lists?.iter().find(|list| list.name.as_slice() == name)
    }

    /// A file of this form, with these lists and with this line.
    pub(crate) fn with_line(self, alloc: Global, line: &[u8]) -> Result<Vec<u8>, NoMemory> {
        let mut file = Vec::new(alloc);
        if self.form == FileForm::Second {
            file.extend_from_slice(b"rules 2\n")?;
        }
        if let Some(lists) = self.lists {
            for list in lists {
                put_list(&mut file, list)?;
            }
        }
        file.extend_from_slice(line)?;
        Ok(file)
    }

    /// The names of the lists, joined by `|`.
    pub(crate) fn list_names(self, alloc: Global) -> Result<Vec<u8>, NoMemory> {
        let mut names = Vec::new(alloc);
        if let Some(lists) = self.lists {
            for list in lists {
                if !names.is_empty() {
                    names.push(b'|')?;
                }
                names.extend_from_slice(list.name.as_slice())?;
            }
        }
        Ok(names)
    }
}

/// Puts a line with the name and the kind of the list, and with no path.
fn put_list(file: &mut Vec<u8>, list: &ListSource) -> Result<(), NoMemory> {
    file.extend_from_slice(b"list ")?;
    file.extend_from_slice(list.name.as_slice())?;
    file.push(b' ')?;
    file.extend_from_slice(list.kind.name())?;
    file.extend_from_slice(b" \"\"\n")?;
    Ok(())
}

/// The lists of a file with these bytes; none where a line of them is at fault.
pub(crate) fn lists_of_file(alloc: Global, bytes: &[u8]) -> Result<Option<ListSources>, NoMemory> {
    match list_sources(alloc, bytes) {
        Ok(lists) => Ok(Some(lists)),
        Err(RuleFault::NoMemory) => Err(NoMemory),
        Err(_) => Ok(None),
    }
}
