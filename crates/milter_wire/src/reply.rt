//! What the filter sends to the mail server (MTA).

ghost use Rattle.std.specs.Prelude.{◌≡◌, ◌≤◌, ◌-◌, ◌^◌, ◌++◌, ◌↔◌, length, min, IsTrue, OnOk, OnErr, IfOk, IsErrOf, MatchResult};
ghost use Rattle.milter_wire.specs.declared.reply.Reply.{Reply};
ghost use Rattle.milter_fields.specs.AppendedBytes.{PutsBytes};
ghost use Rattle.milter_fields.specs.Packet.{packet};
ghost use Rattle.milter_wire.specs.Reply.{code_of, payload_of, is_code, Fits, FieldsFit, IsEncodedAs, encoding, reply_in};
ghost use Rattle.milter_wire.specs.Payload.{PayloadFits, payload_bytes};
ghost use Rattle.milter_wire.specs.Tables.{Decodes};
ghost use Rattle.milter_fields.specs.Decoders.{DecodesOptional};

use crate::codes::{
    SMFIC_OPTNEG, SMFIR_ACCEPT, SMFIR_ADDHEADER, SMFIR_ADDRCPT, SMFIR_ADDRCPT_PAR, SMFIR_CHGFROM,
    SMFIR_CHGHEADER, SMFIR_CONTINUE, SMFIR_DELRCPT, SMFIR_DISCARD, SMFIR_INSHEADER, SMFIR_PROGRESS,
    SMFIR_QUARANTINE, SMFIR_REJECT, SMFIR_REPLBODY, SMFIR_REPLYCODE, SMFIR_SKIP, SMFIR_TEMPFAIL,
};
use crate::options::Options;
use crate::payload::PayloadRef;
use crate::symbol_lists::{SymLists, take_options_with_lists};
use milter_fields::{
    Header, NoMemory, PAYLOAD_MAX, Text, WireFault, put_head, take_addressed, take_header,
    take_indexed, take_reply_code, take_text,
};
use std::alloc::Global;

/// A packet that a filter sends to an MTA. Source: mfdef.h (the codes SMFIR_), and the layouts that libmilter writes.
#[derive(Clone, Debug, PartialEq, Eq, Drop)]
pub enum Reply {
    /// `O`: the version, actions and protocol steps that the filter accepts, and the macros that it asks for.
    Options {
        /// The version, the actions and the protocol steps.
        options: Options,
        /// The symbol lists, which a mail server looks at where it offered `Actions::SETSYMLIST`.
        lists: SymLists,
    },
    /// `+`: the message gets this recipient too.
    AddRcpt(Text),
    /// `-`: the message doesn't get this recipient.
    DelRcpt(Text),
    /// `2`: the message gets this recipient too.
    AddRcptPar {
        /// The address.
        address: Text,
        /// Its ESMTP parameters in one text; none is not the empty text.
        arguments: Option<Text>,
    },
    /// `a`: the message is taken as it is, and the filter isn't asked about it again.
    Accept,
    /// `b`: a chunk of the body that replaces the message's own, of up to 65,535 bytes of any kind.
    ReplaceBody(Text),
    /// `c`: the MTA goes on.
    Continue,
    /// `d`: the message is taken and thrown away.
    Discard,
    /// `e`: the message gets this sender.
    ChangeFrom {
        /// The address.
        address: Text,
        /// Its ESMTP parameters in one text; none is not the empty text.
        arguments: Option<Text>,
    },
    /// `h`: the message gets this header field as its last.
    AddHeader(Header),
    /// `i`: the message gets this header field at an index.
    InsertHeader {
        /// The index, from 0 at the top.
        index: u32,
        /// The header field.
        header: Header,
    },
    /// `m`: a header field of the message gets another value.
    ChangeHeader {
        /// Which one of those with the name, from 1.
        index: u32,
        /// The name, and the new value; the empty value deletes the field.
        header: Header,
    },
    /// `p`: the filter is still at work.
    Progress,
    /// `q`: the message goes into quarantine, for this reason.
    Quarantine(Text),
    /// `r`: what was asked about is refused for good.
    Reject,
    /// `s`: the MTA sends no further chunk of this body.
    Skip,
    /// `t`: what was asked about is refused for now.
    Tempfail,
    /// `y`: what was asked about is refused with this text. It begins with `4` or `5` and two digits.
    Code(Text),
}

impl Reply {
    /// Whether the reply has an encoding: its code and payload have at most 65,536 bytes, no string in it has a NUL,
    /// and a reply code begins with `4` or `5` and two digits. Doesn't allocate.
    pub fn fits(&self) -> bool
        ensures { IsTrue result ↔ Fits self.now }
    {
        let payload = self.payload();
        payload.fits() && payload.len() <= PAYLOAD_MAX
    }

    /// The payload, by its layout. Doesn't allocate.
    pub fn payload(&self) -> PayloadRef<'_>
        ensures bytes { payload_bytes result ≡ payload_of self.now }
        ensures fits { PayloadFits result ↔ FieldsFit self.now }
    {
        match self {
            Reply::Options { options, lists } => PayloadRef::Options(options, lists),
            Reply::AddRcpt(text) | Reply::DelRcpt(text) | Reply::Quarantine(text) => {
                PayloadRef::String(text)
            }
            Reply::AddRcptPar { address, arguments } | Reply::ChangeFrom { address, arguments } => {
                PayloadRef::Addressed(address, arguments)
            }
            Reply::AddHeader(header) => PayloadRef::Header(header),
            Reply::InsertHeader { index, header } | Reply::ChangeHeader { index, header } => {
                PayloadRef::Indexed(*index, header)
            }
            Reply::Code(text) => PayloadRef::Code(text),
            Reply::ReplaceBody(bytes) => PayloadRef::Bytes(bytes),
            Reply::Accept | Reply::Continue | Reply::Discard | Reply::Progress => PayloadRef::Empty,
            Reply::Reject | Reply::Skip | Reply::Tempfail => PayloadRef::Empty,
        }
    }

    /// Appends the packet to `out`: four bytes of length, the code, the payload. After `NoMemory`, `out` is as it was.
    /// Source: mfdef.h.
    pub fn encode(&self, _alloc: Global, out: &mut Vec<u8>) -> Result<(), NoMemory>
        requires { Fits self.now }
        ensures ok { OnOk result (out.new.items ≡ out.old.items ++ encoding self.now) }
        ensures err { OnErr result (out.new.items ≡ out.old.items) }
    {
        let start = out.len();
        let written = put_reply(out, self);
        if written.is_err() {
            out.truncate(start);
        }
        written
    }

    /// The reply that a packet's code and payload encode. The payload has at most 65,535 bytes. The fault is
    /// `UnknownCode(code)` where no reply has the code, `Malformed(code)` where one has it and the payload isn't in
    /// its layout, and `NoMemory` only where the payload is in its layout. Source: mfdef.h, and the layouts that
    /// libmilter writes.
    pub fn decode(alloc: Global, code: u8, payload: &[u8]) -> Result<Reply, WireFault>
        requires { length payload.now ≤ PAYLOAD_MAX }
        // What is decoded is encoded so, each byte of it.
        ensures found { IfOk result (λ r. IsEncodedAs r (packet code payload.now)) }
        // What is encoded so is decoded, unless memory is refused.
        ensures only { (r : Reply) → IsEncodedAs r (packet code payload.now) →
            MatchResult result (λ s. s ≡ r) (λ e. e ≡ WireFault.NoMemory) }
        ensures unknown { IsErrOf result (WireFault.UnknownCode code) ↔ ¬ IsTrue (is_code code) }
        ensures malformed { IsErrOf result (WireFault.Malformed code)
            ↔ (IsTrue (is_code code) × ((r : Reply) → ¬ IsEncodedAs r (packet code payload.now))) }
        ensures memory { IsErrOf result WireFault.NoMemory → (r : Reply) × IsEncodedAs r (packet code payload.now) }
        // The same in words that compute.
        ensures reading { Decodes code (is_code code) (reply_in code payload.now) result }
    {
        take_reply(alloc, code, payload)
    }
}

fn put_reply(out: &mut Vec<u8>, reply: &Reply) -> Result<(), NoMemory>
    requires { Fits reply.now }
    ensures { PutsBytes (encoding reply.now) out.old.items out.new.items result }
{
    let payload = reply.payload();
    put_head(out, code(reply), payload.len())?;
    payload.put(out)
}

fn code(reply: &Reply) -> u8
    ensures { result ≡ code_of reply.now }
{
    match reply {
        Reply::Options { .. } => SMFIC_OPTNEG,
        Reply::AddRcpt(_) => SMFIR_ADDRCPT,
        Reply::DelRcpt(_) => SMFIR_DELRCPT,
        Reply::AddRcptPar { .. } => SMFIR_ADDRCPT_PAR,
        Reply::Accept => SMFIR_ACCEPT,
        Reply::ReplaceBody(_) => SMFIR_REPLBODY,
        Reply::Continue => SMFIR_CONTINUE,
        Reply::Discard => SMFIR_DISCARD,
        Reply::ChangeFrom { .. } => SMFIR_CHGFROM,
        Reply::AddHeader(_) => SMFIR_ADDHEADER,
        Reply::InsertHeader { .. } => SMFIR_INSHEADER,
        Reply::ChangeHeader { .. } => SMFIR_CHGHEADER,
        Reply::Progress => SMFIR_PROGRESS,
        Reply::Quarantine(_) => SMFIR_QUARANTINE,
        Reply::Reject => SMFIR_REJECT,
        Reply::Skip => SMFIR_SKIP,
        Reply::Tempfail => SMFIR_TEMPFAIL,
        Reply::Code(_) => SMFIR_REPLYCODE,
    }
}

#[tactic(auto, unfolding(crate::specs::Reply::is_code))]
fn is_code(code: u8) -> bool
    ensures { result ≡ is_code code }
{
    matches!(
        code,
        SMFIR_ADDRCPT
            | SMFIR_DELRCPT
            | SMFIR_ADDRCPT_PAR
            | SMFIC_OPTNEG
            | SMFIR_ACCEPT
            | SMFIR_REPLBODY
            | SMFIR_CONTINUE
            | SMFIR_DISCARD
            | SMFIR_CHGFROM
            | SMFIR_ADDHEADER
            | SMFIR_INSHEADER
            | SMFIR_CHGHEADER
            | SMFIR_PROGRESS
            | SMFIR_QUARANTINE
            | SMFIR_REJECT
            | SMFIR_SKIP
            | SMFIR_TEMPFAIL
            | SMFIR_REPLYCODE
    )
}

fn take_reply(alloc: Global, code: u8, payload: &[u8]) -> Result<Reply, WireFault>
    ensures { Decodes code (is_code code) (reply_in code payload.now) result }
{
    if !is_code(code) {
        return Err(WireFault::UnknownCode(code));
    }
    match take_payload(alloc, code, payload)? {
        Some(reply) => Ok(reply),
        None => Err(WireFault::Malformed(code)),
    }
}

/// The reply of this code and payload, where it is in its layout.
#[tactic(auto, unfolding(crate::specs::Reply::reply_in))]
fn take_payload(alloc: Global, code: u8, payload: &[u8]) -> Result<Option<Reply>, NoMemory>
    ensures { DecodesOptional (reply_in code payload.now) result }
{
    let nothing = payload.is_empty();
    match code {
        SMFIR_ADDRCPT => Ok(take_text(alloc, payload)?.map(Reply::AddRcpt)),
        SMFIR_DELRCPT => Ok(take_text(alloc, payload)?.map(Reply::DelRcpt)),
        SMFIR_ADDRCPT_PAR => Ok(take_addressed(alloc, payload)?.map(|(
            address,
            arguments,
        )| Reply::AddRcptPar { address, arguments })),
        SMFIC_OPTNEG => Ok(take_options_with_lists(alloc, payload)?.map(|(
            options,
            lists,
        )| Reply::Options { options, lists })),
        SMFIR_ACCEPT => Ok(nothing.then_some(Reply::Accept)),
        SMFIR_REPLBODY => Ok(Some(Reply::ReplaceBody(Text::copy_of(alloc, payload)?))),
        SMFIR_CONTINUE => Ok(nothing.then_some(Reply::Continue)),
        SMFIR_DISCARD => Ok(nothing.then_some(Reply::Discard)),
        SMFIR_CHGFROM => Ok(take_addressed(alloc, payload)?.map(|(
            address,
            arguments,
        )| Reply::ChangeFrom { address, arguments })),
        SMFIR_ADDHEADER => Ok(take_header(alloc, payload)?.map(Reply::AddHeader)),
        SMFIR_INSHEADER => Ok(take_indexed(alloc, payload)?.map(|(
            index,
            header,
        )| Reply::InsertHeader { index, header })),
        SMFIR_CHGHEADER => Ok(take_indexed(alloc, payload)?.map(|(
            index,
            header,
        )| Reply::ChangeHeader { index, header })),
        SMFIR_PROGRESS => Ok(nothing.then_some(Reply::Progress)),
        SMFIR_QUARANTINE => Ok(take_text(alloc, payload)?.map(Reply::Quarantine)),
        SMFIR_REJECT => Ok(nothing.then_some(Reply::Reject)),
        SMFIR_SKIP => Ok(nothing.then_some(Reply::Skip)),
        SMFIR_TEMPFAIL => Ok(nothing.then_some(Reply::Tempfail)),
        SMFIR_REPLYCODE => Ok(take_reply_code(alloc, payload)?.map(Reply::Code)),
        _ => Ok(None),
    }
}
