//! The stages of a connection and of its messages, and what the protocol knows of each.

ghost use Rattle.std.specs.Prelude.{◌≡◌};
ghost use Rattle.milter_wire.specs.Stages.{macro_command_of, macro_stage_of, name_of, not_answered_of, not_sent_of, stage_named};

use crate::codes::{
    SMFIC_BODYEOB, SMFIC_CONNECT, SMFIC_DATA, SMFIC_EOH, SMFIC_HELO, SMFIC_MAIL, SMFIC_RCPT,
};
use crate::macro_stage::MacroStage;
use crate::options::Protocol;

/// A stage at which a filter is asked, in the order of a connection and of each of its messages. Source: the libmilter
/// callback documentation (order of callbacks).
#[derive(Clone, Copy, Debug, PartialEq, Eq)]
pub enum Stage {
    /// A client has connected.
    Connect,
    /// The client has sent HELO or EHLO.
    Helo,
    /// The sender of a message.
    Mail,
    /// A recipient of the message.
    Rcpt,
    /// The client has sent DATA.
    DataCmd,
    /// A header field of the message.
    Header,
    /// The header has ended.
    Eoh,
    /// A chunk of the body.
    Body,
    /// The message has ended.
    Eob,
}

/// What the protocol knows of a stage.
#[derive(Clone, Copy)]
struct Row {
    macro_command: Option<u8>,
    not_sent: Option<Protocol>,
    not_answered: Option<Protocol>,
}

/// The table of stages.
fn row_of(stage: Stage) -> Row
    ensures macros { result.macro_command ≡ macro_command_of stage }
    ensures sent { result.not_sent ≡ not_sent_of stage }
    ensures answered { result.not_answered ≡ not_answered_of stage }
{
    let (macro_command, not_sent, not_answered) = match stage {
        Stage::Connect => (
            Some(SMFIC_CONNECT),
            Some(Protocol::NOCONNECT),
            Some(Protocol::NR_CONN),
        ),
        Stage::Helo => (
            Some(SMFIC_HELO),
            Some(Protocol::NOHELO),
            Some(Protocol::NR_HELO),
        ),
        Stage::Mail => (
            Some(SMFIC_MAIL),
            Some(Protocol::NOMAIL),
            Some(Protocol::NR_MAIL),
        ),
        Stage::Rcpt => (
            Some(SMFIC_RCPT),
            Some(Protocol::NORCPT),
            Some(Protocol::NR_RCPT),
        ),
        Stage::DataCmd => (
            Some(SMFIC_DATA),
            Some(Protocol::NODATA),
            Some(Protocol::NR_DATA),
        ),
        Stage::Header => (None, Some(Protocol::NOHDRS), Some(Protocol::NR_HDR)),
        Stage::Eoh => (
            Some(SMFIC_EOH),
            Some(Protocol::NOEOH),
            Some(Protocol::NR_EOH),
        ),
        Stage::Body => (None, Some(Protocol::NOBODY), Some(Protocol::NR_BODY)),
        Stage::Eob => (Some(SMFIC_BODYEOB), None, None),
    };
    Row {
        macro_command,
        not_sent,
        not_answered,
    }
}

impl Stage {
    /// All of them, in their order.
    pub const ALL: [Stage; 9] = [
        Stage::Connect,
        Stage::Helo,
        Stage::Mail,
        Stage::Rcpt,
        Stage::DataCmd,
        Stage::Header,
        Stage::Eoh,
        Stage::Body,
        Stage::Eob,
    ];

    /// The word of the stage in text files. Doesn't allocate.
    pub fn name(self) -> &'static [u8]
        ensures { result.now ≡ name_of self }
    {
        match self {
            Stage::Connect => b"connect",
            Stage::Helo => b"helo",
            Stage::Mail => b"mail",
            Stage::Rcpt => b"rcpt",
            Stage::DataCmd => b"data",
            Stage::Header => b"header",
            Stage::Eoh => b"eoh",
            Stage::Body => b"body",
            Stage::Eob => b"eob",
        }
    }

    /// The stage with this name, matched exactly; none where no stage has it. Doesn't allocate.
    pub fn from_name(name: &[u8]) -> Option<Stage>
        ensures { result ≡ stage_named name.now }
    {
        Stage::ALL
            .iter()
            .copied()
            .find(|stage| name == stage.name())
    }

    /// The stage whose macros precede each command of this one. A header field and a chunk of the body have none.
    /// Source: mfapi.h (SMFIM_CONNECT and those after it).
    pub fn macro_stage(self) -> Option<MacroStage>
        ensures { result ≡ macro_stage_of self }
    {
        match self {
            Stage::Connect => Some(MacroStage::Connect),
            Stage::Helo => Some(MacroStage::Helo),
            Stage::Mail => Some(MacroStage::Mail),
            Stage::Rcpt => Some(MacroStage::Rcpt),
            Stage::DataCmd => Some(MacroStage::DataCmd),
            Stage::Eoh => Some(MacroStage::Eoh),
            Stage::Eob => Some(MacroStage::Eom),
            Stage::Header | Stage::Body => None,
        }
    }

    /// The command byte of the macro packet that precedes the stage: the code of the stage's own command. A header
    /// field and a chunk of the body have none. Source: mfapi.h (SMFIM_CONNECT and those after it).
    pub fn macro_command(self) -> Option<u8>
        ensures { result ≡ macro_command_of self }
    {
        row_of(self).macro_command
    }

    /// The bit by which the stage isn't sent; the end of a message is always sent. Source: mfdef.h (SMFIP_NOCONNECT
    /// to SMFIP_NOEOH, and SMFIP_NODATA).
    pub fn not_sent(self) -> Option<Protocol>
        ensures { result ≡ not_sent_of self }
    {
        row_of(self).not_sent
    }

    /// The bit by which the stage isn't answered; the end of a message is always answered. Source: mfdef.h
    /// (SMFIP_NR_CONN and those after it).
    pub fn not_answered(self) -> Option<Protocol>
        ensures { result ≡ not_answered_of self }
    {
        row_of(self).not_answered
    }
}
