//! What the two ends negotiated.

ghost use Rattle.std.specs.Prelude.{◌≡◌};
ghost use Rattle.milter_wire.specs.Negotiation.{negotiate, has, has_leading_space, is_answered, is_of_version, is_sent};

use crate::options::{Actions, Options, Protocol, common_options};
use crate::stage::Stage;
use crate::symbol_lists::SymLists;

/// The first version of the protocol that has the stage of DATA. Source: mfdef.h (SMFIC_DATA).
const DATA_VERSION: u32 = 4;

/// What both ends negotiated: which stages are sent and which are answered, the changes to a message that the filter
/// may ask for, and the macros that it asked for. Source: the libmilter callback documentation (xxfi_negotiate).
#[derive(Clone, Debug, PartialEq, Eq, Drop)]
pub struct Negotiated {
    /// The version, the actions and the protocol bits of both ends.
    pub options: Options,
    /// The symbol lists of the filter, where the mail server took some.
    pub lists: SymLists,
}

/// What both ends have: the smaller of the two versions, the actions and the protocol bits that are in both, and the
/// symbol lists where the offer has [`Actions::SETSYMLIST`], else none. Doesn't allocate. Source: the libmilter
/// callback documentation (xxfi_negotiate).
pub fn negotiate(offer: Options, wants: Options, lists: SymLists) -> Negotiated
    ensures { result ≡ negotiate offer wants lists }
{
    let options = common_options(offer, wants);
    if offer.actions.0 & Actions::SETSYMLIST.0 != 0 {
        return Negotiated { options, lists };
    }
    let lists = lists.cleared();
    Negotiated { options, lists }
}

impl Negotiated {
    /// Whether the commands of the stage are sent: its bit was not negotiated, and the version has it. Doesn't
    /// allocate. Source: mfdef.h (SMFIP_NOCONNECT to SMFIP_NOEOH, and SMFIP_NODATA).
    pub fn is_sent(&self, stage: Stage) -> bool
        ensures { result ≡ is_sent self.now stage }
    {
        !self.has(stage.not_sent()) && self.is_of_version(stage)
    }

    /// Whether the commands of the stage are answered: its bit was not negotiated. Macros are of no stage, and never
    /// answered. Doesn't allocate. Source: mfdef.h (SMFIP_NR_CONN and those after it).
    pub fn is_answered(&self, stage: Stage) -> bool
        ensures { result ≡ is_answered self.now stage }
    {
        !self.has(stage.not_answered())
    }

    /// Whether values of header fields are sent with the blank that they begin with. Doesn't allocate. Source:
    /// mfdef.h (SMFIP_HDR_LEADSPC).
    pub fn has_leading_space(&self) -> bool
        ensures { result ≡ has_leading_space self.now }
    {
        self.has(Some(Protocol::HDR_LEADSPC))
    }

    /// Whether the bit, if there is one, was negotiated.
    fn has(&self, bit: Option<Protocol>) -> bool
        ensures { result ≡ has self.now bit }
    {
        match bit {
            Some(bit) => self.options.protocol.0 & bit.0 != 0,
            None => false,
        }
    }

    /// Whether the version that was negotiated has the stage.
    fn is_of_version(&self, stage: Stage) -> bool
        ensures { result ≡ is_of_version self.now stage }
    {
        stage != Stage::DataCmd || self.options.version >= DATA_VERSION
    }
}
