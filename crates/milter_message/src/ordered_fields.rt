//! Header fields that edits only insert.

ghost use Rattle.std.specs.Prelude.{◌≡◌, ◌≤◌, [], IfOk, OnOk, length};
ghost use Rattle.std.specs.List.{insert};
ghost use Rattle.milter_message.specs.EditedFields.{shown};

use crate::source::{Source, copies_of};
use milter_field_index::Sequence;
use milter_wire::{Header, NoMemory};
use std::alloc::Global;
use std::marker::Model;

/// Header fields in order. None is looked for by its name. Their texts are borrowed until they are copied at the end.
#[derive(Debug, Drop)]
pub(crate) struct OrderedFields<'a> {
    // Each field, by its id.
    sources: Vec<Source<'a>>,
    // The ids of the fields, in order.
    order: Sequence,
}

impl<'a> Model for OrderedFields<'a> {
    ghost use Rattle.std.specs.Prelude.{List, map};
    ghost use Rattle.milter_message.specs.EditedFields.{HasOrder, header_at, shown};
    ghost use Rattle.milter_fields.specs.declared.header.Header.{Header};

    ghost Value = { List Header };

    ghost view = { λ f. map (header_at (map shown f.sources.items)) f.order };

    ghost invariant = { λ f. HasOrder f.sources.items f.order };
}

impl<'a> OrderedFields<'a> {
    /// No fields.
    pub(crate) fn new(alloc: Global) -> Result<Self, NoMemory>
        ensures { IfOk result (λ fields. fields ≡ []) }
    {
        Ok(OrderedFields {
            sources: Vec::new(alloc),
            order: Sequence::new(alloc)?,
        })
    }

    /// How many fields there are.
    pub(crate) fn len(&self) -> usize
        ensures { result ≡ length self.now }
    {
        self.sources.len()
    }

    /// Inserts a field after so many others.
    pub(crate) fn insert(
        self,
        alloc: Global,
        position: usize,
        source: Source<'a>,
    ) -> Result<Self, NoMemory>
        requires { position ≤ length self }
        ensures { IfOk result (λ fields. fields ≡ insert self.entry position (shown source.entry)) }
    {
        let OrderedFields {
            mut sources,
            mut order,
        } = self;
        if sources.len() >= u32::MAX as usize {
            return Err(NoMemory);
        }
        order.insert(alloc, position, sources.len() as u32)?;
        sources.push(source)?;
        Ok(OrderedFields { sources, order })
    }

    /// Copies of the fields, in order. Each text is copied once.
    pub(crate) fn to_headers(&self, alloc: Global) -> Result<Vec<Header>, NoMemory>
        ensures { IfOk result (λ headers. headers.items ≡ self.now) }
    {
        let ids = self.order.to_vec(alloc)?;
        copies_of(alloc, self.sources.as_slice(), ids.as_slice())
    }
}
