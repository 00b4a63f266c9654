//! The edits that came since the last verdict.

ghost use Rattle.std.specs.Prelude.{◌≡◌, ◌≤◌, ◌+◌, ◌++◌, ◌∷◌, [], All, OnErr, OnOk};
ghost use Rattle.milter_message.specs.declared.message.TheConstants.{WEIGHT_MAX};
ghost use Rattle.milter_message.specs.EditReplies.{reply_of, weight_of};
ghost use Rattle.milter_wire.specs.Reply.{Fits};
ghost use Rattle.milter_mta_outcome.specs.EditWeights.{weight_of_all};

use milter_message::Edit;
use milter_protocol::Edits;
use milter_wire::NoMemory;
use std::alloc::Global;
use std::marker::Model;

/// The edits that came since the last verdict, in order: each fits a packet, and all have at most 16,777,216 bytes.
#[derive(Debug, Drop)]
pub struct ReceivedEdits {
    edits: Vec<Edit>,
    // The bytes of their packets.
    weight: usize,
}

impl Model for ReceivedEdits {
    ghost use Rattle.std.specs.Prelude.{◌≡◌, ◌≤◌, All, List};
    ghost use Rattle.milter_message.specs.declared.edit.Edit.{Edit};
    ghost use Rattle.milter_message.specs.declared.message.TheConstants.{WEIGHT_MAX};
    ghost use Rattle.milter_message.specs.EditReplies.{reply_of};
    ghost use Rattle.milter_wire.specs.Reply.{Fits};
    ghost use Rattle.milter_mta_outcome.specs.EditWeights.{weight_of_all};

    ghost Value = { List Edit };

    ghost view = { λ e. e.edits.items };

    ghost invariant = { λ e. (e.weight ≡ weight_of_all e.edits.items) × (e.weight ≤ WEIGHT_MAX)
        × All (λ edit. Fits (reply_of edit)) e.edits.items };
}

impl ReceivedEdits {
    /// An empty list.
    pub fn new(alloc: Global) -> Self
        ensures { result ≡ [] }
    {
        ReceivedEdits {
            edits: Vec::new(alloc),
            weight: 0,
        }
    }

    /// The bytes of their packets. Doesn't allocate.
    pub fn weight(&self) -> usize
        ensures weight { result ≡ weight_of_all self.now }
        ensures bound { result ≤ WEIGHT_MAX }
    {
        self.weight
    }

    /// The edits, each of which fits a packet. Doesn't allocate.
    pub fn as_slice(&self) -> &[Edit]
        ensures edits { result.now ≡ self.now }
        ensures fit { All (λ edit. Fits (reply_of edit)) result.now }
    {
        self.edits.as_slice()
    }

    /// Adds an edit as the last. After `NoMemory` they are as they were.
    pub fn push(&mut self, edit: Edit) -> Result<(), NoMemory>
        requires fits { Fits (reply_of edit) }
        requires bound { weight_of_all self.old + weight_of edit ≤ WEIGHT_MAX }
        ensures ok { OnOk result (self.new ≡ self.old ++ edit ∷ []) }
        ensures err { OnErr result (self.new ≡ self.old) }
    {
        let weight = edit.weight();
        self.edits.push(edit)?;
        self.weight += weight;
        Ok(())
    }

    /// The edits, to be taken. Doesn't allocate.
    pub fn into_edits(self) -> Edits
        ensures edits { result ≡ self }
        ensures fit { All (λ edit. Fits (reply_of edit)) result }
    {
        Edits::new(self.edits)
    }
}
