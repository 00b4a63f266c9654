//! Header fields that edits insert, delete and find by an index.

ghost use Rattle.std.specs.Prelude.{◌≡◌, ◌≤◌, ◌==◌, [], IfOk, length};
ghost use Rattle.std.specs.List.{insert, remove};
ghost use Rattle.milter_field_index.specs.Occurrence.{nth};
ghost use Rattle.milter_message.specs.EditedFields.{headers_of, shown, with_value_at};

use crate::source::{Source, copies_of};
use milter_field_index::FieldIndex;
use milter_wire::{Header, NoMemory};
use std::alloc::Global;
use std::marker::Model;

/// Header fields in order, each with the number of its name. Their texts are borrowed until they are copied at the end.
#[derive(Debug, Drop)]
pub(crate) struct EditedFields<'a> {
    // Each field that was ever inserted, by its id.
    sources: Vec<Source<'a>>,
    index: FieldIndex,
}

impl<'a> Model for EditedFields<'a> {
    ghost use Rattle.std.specs.Prelude.{List};
    ghost use Rattle.milter_message.specs.EditedFields.{HasSources, NumberedField, fields_of};

    ghost Value = { List NumberedField };

    ghost view = { λ f. fields_of f.sources.items f.index.entries };

    ghost invariant = { λ f. HasSources f.sources.items f.index };
}

impl<'a> EditedFields<'a> {
    /// No fields.
    pub(crate) fn new(alloc: Global) -> Result<Self, NoMemory>
        ensures { IfOk result (λ fields. fields ≡ []) }
    {
        Ok(EditedFields {
            sources: Vec::new(alloc),
            index: FieldIndex::new(alloc)?,
        })
    }

    /// How many fields there are.
    pub(crate) fn len(&self) -> usize
        ensures { result ≡ length self.now }
    {
        self.index.len()
    }

    /// The position of the field with this number among those whose name has a number, both counted from 0.
    pub(crate) fn nth(&self, name: u32, number: usize) -> Option<usize>
        ensures { result ≡ nth (λ field. field.name == name) number self.now }
    {
        self.index.nth(name, number)
    }

    /// Inserts a field after so many others; its name has this number.
    pub(crate) fn insert(
        self,
        alloc: Global,
        position: usize,
        name: u32,
        source: Source<'a>,
    ) -> Result<Self, NoMemory>
        requires { position ≤ length self }
        ensures { IfOk result (λ fields. fields
            ≡ insert self.entry position (record { name = name; header = shown source.entry })) }
    {
        let EditedFields { mut sources, index } = self;
        if sources.len() >= u32::MAX as usize {
            return Err(NoMemory);
        }
        let index = index.insert(alloc, position, name)?;
        sources.push(source)?;
        Ok(EditedFields { sources, index })
    }

    /// Gives the field at a position another value; past the end nothing is done. It keeps its name.
    pub(crate) fn set_value(&mut self, position: usize, source: Source<'a>)
        ensures { self.new ≡ with_value_at position (shown source.entry).value self.old }
    {
        if let Some(id) = self.index.id(position) {
            let name = self.sources[id as usize].name;
            self.sources[id as usize] = Source { name, ..source };
        }
    }

    /// Deletes the field at a position; past the end nothing is done.
    pub(crate) fn remove(&mut self, position: usize)
        ensures { self.new ≡ remove self.old position }
    {
        self.index.remove(position);
    }

    /// Copies of the fields, in order. Each text is copied once.
    pub(crate) fn to_headers(&self, alloc: Global) -> Result<Vec<Header>, NoMemory>
        ensures { IfOk result (λ headers. headers.items ≡ headers_of self.now) }
    {
        let ids = self.index.ids(alloc)?;
        copies_of(alloc, self.sources.as_slice(), ids.as_slice())
    }
}
