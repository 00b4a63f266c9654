//! Why a mail server goes on without a filter's verdict.

ghost use Rattle.std.specs.Prelude.{◌≡◌};
ghost use Rattle.milter_mta_outcome.specs.Losses.{loss_number, mta_fault_number};

use milter_wire::WireFault;
use thiserror::Error;

/// What a filter sent that a mail server can't take.
#[derive(Clone, Copy, Debug, PartialEq, Eq, Error)]
pub enum MtaFault {
    /// A packet can't be read.
    #[error("{0}")]
    Wire(WireFault),
    /// The filter answers with a version below 2, above 6 or above the offered one.
    #[error("version not supported")]
    Version,
    /// The filter wants actions, or symbol lists, that were not offered.
    #[error("actions that were not offered")]
    ActionsNotOffered,
    /// The filter wants protocol bits that were not offered.
    #[error("protocol bits that were not offered")]
    ProtocolNotOffered,
    /// The reply is none to what was sent.
    #[error("reply not at this stage")]
    NotAtThisStage,
    /// The filter asks for an edit that was not negotiated.
    #[error("edit that was not negotiated")]
    EditNotNegotiated,
    /// The packets of a message's edits have more than 16,777,216 bytes.
    #[error("too many edits")]
    TooManyEdits,
    /// Something came while no reply was owed.
    #[error("reply before its command")]
    Early,
}

impl MtaFault {
    /// The fault's number, from 1 to 8 in the order of the variants.
    pub fn number(&self) -> u8
        ensures { result ≡ mta_fault_number self.now }
    {
        match self {
            MtaFault::Wire(_) => 1,
            MtaFault::Version => 2,
            MtaFault::ActionsNotOffered => 3,
            MtaFault::ProtocolNotOffered => 4,
            MtaFault::NotAtThisStage => 5,
            MtaFault::EditNotNegotiated => 6,
            MtaFault::TooManyEdits => 7,
            MtaFault::Early => 8,
        }
    }
}

/// How a filter was lost.
#[derive(Clone, Copy, Debug, PartialEq, Eq, Error)]
pub enum Loss {
    /// The connection broke, or could not be made.
    #[error("connection lost")]
    Reset,
    /// The filter did not answer in time.
    #[error("timeout")]
    Timeout,
    /// The memory that was asked for was refused.
    #[error("out of memory")]
    Memory,
    /// The filter sent what can't be taken.
    #[error("{0}")]
    Fault(MtaFault),
}

impl Loss {
    /// The number of the loss, from 1 to 4 in the order of the variants.
    pub fn number(&self) -> u8
        ensures { result ≡ loss_number self.now }
    {
        match self {
            Loss::Reset => 1,
            Loss::Timeout => 2,
            Loss::Memory => 3,
            Loss::Fault(_) => 4,
        }
    }
}

/// What settled a message.
#[derive(Clone, Copy, Debug, PartialEq, Eq)]
pub enum By {
    /// The filter's verdicts on the message.
    Filter,
    /// A verdict on the connection of the client, for all messages of it.
    Connection,
    /// What is configured for a lost filter.
    Default(Loss),
}
