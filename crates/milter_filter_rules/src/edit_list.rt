//! The edits of an answer, as far as they are known.

ghost use Rattle.std.specs.Prelude.{◌≡◌, ◌<◌, ◌++◌, ◌∷◌, [], Err, OnOk};
ghost use Rattle.milter_message.specs.declared.message.TheConstants.{WEIGHT_MAX};
ghost use Rattle.milter_filter_rules.specs.Decisions.{edits_len, edits_of};
ghost use Rattle.milter_filter_rules.specs.HeaderChanges.{deletions, prefixed, value_after};
ghost use Rattle.milter_filter_rules.specs.declared.edit_list.EditFault.TheVariants.{TooLong};

use crate::header_values::{prefix_edit, value_after};
use crate::named_headers::count_named;
use crate::rule::RuleAction;
use milter_filter_stream::Seen;
use milter_message::{Edit, WEIGHT_MAX};
use milter_protocol::{Action, Answer, Edits};
use milter_wire::{Header, RefusedMemory, Text, Verdict};
use std::alloc::Global;
use std::marker::Model;

/// Why an edit isn't asked for.
#[derive(Clone, Copy, Drop)]
pub(crate) enum EditFault {
    /// The packets of all edits would have more than [`WEIGHT_MAX`] bytes.
    TooLong,
    /// The memory that was asked for was refused.
    NoMemory,
}

impl<E: RefusedMemory> From<E> for EditFault {
    ghost use Rattle.std.specs.Prelude.{◌≡◌};
    ghost use Rattle.milter_filter_rules.specs.declared.edit_list.EditFault.TheVariants.{NoMemory};

    ghost from_gives = { λ _ e. e ≡ NoMemory };

    fn from(_error: E) -> EditFault {
        EditFault::NoMemory
    }
}

/// Edits, of which the packets have at most [`WEIGHT_MAX`] bytes.
#[derive(Drop)]
pub(crate) struct EditList {
    edits: Edits,
    /// How many bytes their packets have.
    len: usize,
}

impl Model for EditList {
    ghost use Rattle.std.specs.Prelude.{◌≡◌, ◌≤◌, List};
    ghost use Rattle.milter_message.specs.declared.edit.Edit.{Edit};
    ghost use Rattle.milter_message.specs.declared.message.TheConstants.{WEIGHT_MAX};
    ghost use Rattle.milter_filter_rules.specs.Decisions.{edits_len};

    ghost Value = { List Edit };

    ghost view = { λ l. l.edits };

    ghost invariant = { λ l. (l.len ≡ edits_len l.edits) × (l.len ≤ WEIGHT_MAX) };
}

impl EditList {
    ghost use Rattle.std.specs.Prelude.{◌≤◌};

    /// No edits. Doesn't allocate.
    pub(crate) fn new(alloc: Global) -> Self
        ensures { result ≡ [] }
    {
        EditList {
            edits: Edits::new(Vec::new(alloc)),
            len: 0,
        }
    }

    /// The answer with these edits and this verdict.
    pub(crate) fn into_answer(self, verdict: Verdict) -> Answer
        ensures edits { result.edits ≡ self }
        ensures verdict { result.verdict ≡ verdict }
        ensures len { edits_len self ≤ WEIGHT_MAX }
    {
        Answer {
            edits: self.edits,
            verdict,
        }
    }

    /// Adds the edits of the action; a verdict has none.
    pub(crate) fn add(
        &mut self,
        alloc: Global,
        action: &RuleAction,
        seen: &Seen,
    ) -> Result<(), EditFault>
        ensures ok { OnOk result (self.new ≡ self.old ++ edits_of seen.now.shown.headers self.old action.now) }
        ensures long { result ≡ Err TooLong →
            WEIGHT_MAX < edits_len (self.old ++ edits_of seen.now.shown.headers self.old action.now) }
    {
        match action {
            RuleAction::Fixed(Action::Edit(edit)) => self.push(edit.copy(alloc)?),
            RuleAction::Fixed(Action::Verdict(_)) => Ok(()),
            RuleAction::DeleteHeader(name) => {
                let count = count_named(seen.headers(), name.as_slice());
                self.delete_first(alloc, name, count)
            }
            RuleAction::PrefixHeader(header) => self.prefix(alloc, header, seen.headers()),
        }
    }

    /// Adds the edit.
    fn push(&mut self, edit: Edit) -> Result<(), EditFault>
        ensures ok { OnOk result (self.new ≡ self.old ++ edit ∷ []) }
        ensures long { result ≡ Err TooLong → WEIGHT_MAX < edits_len (self.old ++ edit ∷ []) }
    {
        let len = self.len.saturating_add(edit.weight());
        if len > WEIGHT_MAX {
            return Err(EditFault::TooLong);
        }
        self.edits.push(edit)?;
        self.len = len;
        Ok(())
    }

    /// Adds the edits that delete the first so many fields of the name, the last one first.
    fn delete_first(&mut self, alloc: Global, name: &Text, count: usize) -> Result<(), EditFault>
        ensures ok { OnOk result (self.new ≡ self.old ++ deletions name.now count) }
        ensures long { result ≡ Err TooLong → WEIGHT_MAX < edits_len (self.old ++ deletions name.now count) }
    {
        let mut left = count;
        while left > 0 {
            let Ok(index) = u32::try_from(left) else {
                return Err(EditFault::TooLong);
            };
            let header = Header {
                name: Text::copy_of(alloc, name.as_slice())?,
                value: Text::new(Vec::new(alloc)),
            };
            self.push(Edit::ChangeHeader { index, header })?;
            left -= 1;
        }
        Ok(())
    }

    /// Adds the edit that puts the value of this header field before that of the first field of its name, if there is
    /// one and a value is left.
    fn prefix(&mut self, alloc: Global, header: &Header, seen: &[Header]) -> Result<(), EditFault>
        ensures ok { OnOk result (self.new ≡ self.old
            ++ prefixed header.now.name header.now.value (value_after seen.now self.old header.now.name)) }
        ensures long { result ≡ Err TooLong → WEIGHT_MAX < edits_len (self.old
            ++ prefixed header.now.name header.now.value (value_after seen.now self.old header.now.name)) }
    {
        let Some(value) = value_after(seen, self.edits.as_slice(), header.name.as_slice()) else {
            return Ok(());
        };
        match prefix_edit(alloc, header, value)? {
            Some(edit) => self.push(edit),
            None => Ok(()),
        }
    }
}
