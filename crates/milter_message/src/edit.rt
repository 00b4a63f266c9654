//! What a filter may ask to change of a message.

ghost use Rattle.std.specs.Prelude.{◌≡◌, ◌-◌, ◌^◌, ◌↔◌, IfOk, length, min};
ghost use Rattle.milter_wire.specs.Payload.{PayloadFits, payload_bytes};
ghost use Rattle.milter_wire.specs.Reply.{FieldsFit, payload_of};
ghost use Rattle.milter_message.specs.EditReplies.{edit_of, needed_by, reply_of, weight_of};

use crate::copies::{copy_header, copy_optional};
use milter_wire::{Actions, HEAD_LEN, Header, NoMemory, PayloadRef, Reply, Text};
use std::alloc::Global;

/// A change to a message, which a filter asks for at the end of the message, before its verdict. Source: the libmilter
/// callback documentation (message modification functions).
#[derive(Clone, Debug, PartialEq, Eq, Drop)]
pub enum Edit {
    /// A header field more, after all others. Source: smfi_addheader.
    AddHeader(Header),
    /// A header field more, at an index. Source: smfi_insheader.
    InsertHeader {
        /// The number of header fields before it. Where there are fewer, it comes last.
        index: u32,
        /// The header field.
        header: Header,
    },
    /// Another value for a header field, or none of it. Source: smfi_chgheader.
    ChangeHeader {
        /// Which of the header fields of this name, counted from 1; 0 is taken as 1.
        index: u32,
        /// The name, and the new value. An empty value deletes the field.
        header: Header,
    },
    /// A recipient more, with this address. Source: smfi_addrcpt.
    AddRcpt(Text),
    /// A recipient more, with ESMTP parameters. Source: smfi_addrcpt_par.
    AddRcptPar {
        /// The address.
        address: Text,
        /// The parameters, as one text.
        arguments: Option<Text>,
    },
    /// No recipient with this address. Source: smfi_delrcpt.
    DelRcpt(Text),
    /// Another sender. Source: smfi_chgfrom.
    ChangeFrom {
        /// The address.
        address: Text,
        /// The ESMTP parameters, as one text.
        arguments: Option<Text>,
    },
    /// A chunk of another body. The first one replaces the body, each later one is appended. Source: smfi_replacebody.
    ReplaceBody(Text),
    /// The message goes into quarantine, for this reason. Source: smfi_quarantine.
    Quarantine(Text),
    /// No change: the filter is still at work. Source: smfi_progress.
    Progress,
}

impl Edit {
    /// The edit that a reply asks for, or progress. A reply that asks for none comes back: options or a verdict.
    /// Doesn't allocate. Source: mfdef.h.
    pub fn from_reply(reply: Reply) -> Result<Edit, Reply>
        ensures { result ≡ edit_of reply }
    {
        match reply {
            Reply::AddHeader(header) => Ok(Edit::AddHeader(header)),
            Reply::InsertHeader { index, header } => Ok(Edit::InsertHeader { index, header }),
            Reply::ChangeHeader { index, header } => Ok(Edit::ChangeHeader { index, header }),
            Reply::AddRcpt(address) => Ok(Edit::AddRcpt(address)),
            Reply::AddRcptPar { address, arguments } => Ok(Edit::AddRcptPar { address, arguments }),
            Reply::DelRcpt(address) => Ok(Edit::DelRcpt(address)),
            Reply::ChangeFrom { address, arguments } => Ok(Edit::ChangeFrom { address, arguments }),
            Reply::ReplaceBody(bytes) => Ok(Edit::ReplaceBody(bytes)),
            Reply::Quarantine(reason) => Ok(Edit::Quarantine(reason)),
            Reply::Progress => Ok(Edit::Progress),
            other => Err(other),
        }
    }

    /// The reply that asks for the edit. Doesn't allocate. Source: mfdef.h.
    pub fn into_reply(self) -> Reply
        ensures { result ≡ reply_of self }
    {
        match self {
            Edit::AddHeader(header) => Reply::AddHeader(header),
            Edit::InsertHeader { index, header } => Reply::InsertHeader { index, header },
            Edit::ChangeHeader { index, header } => Reply::ChangeHeader { index, header },
            Edit::AddRcpt(address) => Reply::AddRcpt(address),
            Edit::AddRcptPar { address, arguments } => Reply::AddRcptPar { address, arguments },
            Edit::DelRcpt(address) => Reply::DelRcpt(address),
            Edit::ChangeFrom { address, arguments } => Reply::ChangeFrom { address, arguments },
            Edit::ReplaceBody(bytes) => Reply::ReplaceBody(bytes),
            Edit::Quarantine(reason) => Reply::Quarantine(reason),
            Edit::Progress => Reply::Progress,
        }
    }

    /// The action that the two ends have to negotiate for this edit; progress needs none. Doesn't allocate. Source:
    /// mfapi.h (SMFIF_).
    pub fn needs(&self) -> Actions
        ensures { result.0 ≡ needed_by self.now }
    {
        match self {
            Edit::AddHeader(_) | Edit::InsertHeader { .. } => Actions::ADDHDRS,
            Edit::ChangeHeader { .. } => Actions::CHGHDRS,
            Edit::AddRcpt(_) => Actions::ADDRCPT,
            Edit::AddRcptPar { .. } => Actions::ADDRCPT_PAR,
            Edit::DelRcpt(_) => Actions::DELRCPT,
            Edit::ChangeFrom { .. } => Actions::CHGFROM,
            Edit::ReplaceBody(_) => Actions::CHGBODY,
            Edit::Quarantine(_) => Actions::QUARANTINE,
            Edit::Progress => Actions(0),
        }
    }

    /// The number of bytes of the packet that asks for the edit, its length field among them; or the greatest `usize`,
    /// where there are more. Doesn't allocate.
    #[tactic(auto, unfolding(milter_fields::specs::Number::number))]
    pub fn weight(&self) -> usize
        ensures { result ≡ min (weight_of self.now) (2 ^ 64 - 1) }
    {
        self.payload().len().saturating_add(HEAD_LEN)
    }

    /// The payload of that packet, by its layout. Doesn't allocate.
    pub fn payload(&self) -> PayloadRef<'_>
        ensures bytes { payload_bytes result ≡ payload_of (reply_of self.now) }
        ensures fits { PayloadFits result ↔ FieldsFit (reply_of self.now) }
    {
        match self {
            Edit::AddHeader(header) => PayloadRef::Header(header),
            Edit::InsertHeader { index, header } | Edit::ChangeHeader { index, header } => {
                PayloadRef::Indexed(*index, header)
            }
            Edit::AddRcpt(text) | Edit::DelRcpt(text) | Edit::Quarantine(text) => {
                PayloadRef::String(text)
            }
            Edit::AddRcptPar { address, arguments } | Edit::ChangeFrom { address, arguments } => {
                PayloadRef::Addressed(address, arguments)
            }
            Edit::ReplaceBody(bytes) => PayloadRef::Bytes(bytes),
            Edit::Progress => PayloadRef::Empty,
        }
    }

    /// The same edit. Each of its texts is copied once.
    pub fn copy(&self, alloc: Global) -> Result<Edit, NoMemory>
        ensures { IfOk result (λ copy. copy ≡ self.now) }
    {
        Ok(match self {
            Edit::AddHeader(header) => Edit::AddHeader(copy_header(alloc, header)?),
            Edit::InsertHeader { index, header } => Edit::InsertHeader {
                index: *index,
                header: copy_header(alloc, header)?,
            },
            Edit::ChangeHeader { index, header } => Edit::ChangeHeader {
                index: *index,
                header: copy_header(alloc, header)?,
            },
            Edit::AddRcpt(address) => Edit::AddRcpt(Text::copy_of(alloc, address.as_slice())?),
            Edit::AddRcptPar { address, arguments } => Edit::AddRcptPar {
                address: Text::copy_of(alloc, address.as_slice())?,
                arguments: copy_optional(alloc, arguments)?,
            },
            Edit::DelRcpt(address) => Edit::DelRcpt(Text::copy_of(alloc, address.as_slice())?),
            Edit::ChangeFrom { address, arguments } => Edit::ChangeFrom {
                address: Text::copy_of(alloc, address.as_slice())?,
                arguments: copy_optional(alloc, arguments)?,
            },
            Edit::ReplaceBody(bytes) => Edit::ReplaceBody(Text::copy_of(alloc, bytes.as_slice())?),
            Edit::Quarantine(reason) => Edit::Quarantine(Text::copy_of(alloc, reason.as_slice())?),
            Edit::Progress => Edit::Progress,
        })
    }
}
